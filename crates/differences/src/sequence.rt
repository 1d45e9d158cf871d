// A sequence of requests that two states answer differently, as a value: one, two that make an object anew, or those that end in a reading.
use model::{Level, Request};

// Where an object is to be created: its number, and the owner of a live object there, who deletes it first.
#[derive(Clone, Copy)]
pub struct Place {
    pub object: u8,
    pub owner: Option<u8>,
}

// A place, and the owner that the record of its object says, live or not. It stands beside the place, since the requests of a sequence do not
// show it (`requests-determine`).
#[derive(Clone, Copy)]
pub struct Slot {
    pub place: Place,
    pub recorded: u8,
}

// Remaking: the owner of an object deletes it and creates another. Reading: the subject creates the object of the place, gives it the level
// and asks to read it.
#[derive(Clone, Copy)]
pub enum Sequence {
    One(Request),
    Remaking {
        owner: u8,
        object: u8,
        child: u8,
    },
    Reading {
        place: Place,
        subject: u8,
        level: Level,
    },
}
