mod cuts;
mod names;
mod slots;
mod tanks;
