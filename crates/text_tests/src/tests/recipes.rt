//! Recipes, each against what was worked out by hand.
mod followed;
mod refused;
mod typed;
