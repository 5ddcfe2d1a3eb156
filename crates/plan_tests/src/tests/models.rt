mod readers;
mod refusals;
mod relations;
mod sample;
