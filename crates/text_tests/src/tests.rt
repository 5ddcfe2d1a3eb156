mod altered;
mod commands;
mod dossiers;
mod lines;
mod plans;
mod plants;
