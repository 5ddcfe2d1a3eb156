mod cases;
mod leaves;
mod samples;
mod verdicts;
