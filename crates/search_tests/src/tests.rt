mod boards;
mod cores;
mod decks;
mod pools;
