mod alone;
mod among;
mod trees;
