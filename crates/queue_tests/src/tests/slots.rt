//! Values of several types in the slots of an arena, and what becomes of them at the end.
mod calls;
mod drops;
mod leftovers;
