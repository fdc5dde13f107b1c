mod by_hand;
mod calls;
mod inputs;
mod machines;
mod scenes;
mod sent;
mod step;
mod stores;
