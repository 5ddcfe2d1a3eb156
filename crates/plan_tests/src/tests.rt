mod built_plans;
mod greedy_plans;
mod made_plants;
mod models;
mod replays;
mod samples;
