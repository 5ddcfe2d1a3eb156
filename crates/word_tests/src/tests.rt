mod automata;
mod flows;
mod graphs;
mod orders;
mod points;
mod samples;
mod words;
