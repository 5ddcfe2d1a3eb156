mod asked;
mod cases;
mod looks;
