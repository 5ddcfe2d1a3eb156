mod bounds;
mod corners;
mod forms;
mod rows;
mod samples;
