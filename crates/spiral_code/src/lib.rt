//! Movements on a grid as codes along a square spiral, so that short movements have small codes.
//!
//! `encode_move` and `decode_move` undo each other, and each code is that of the table in
//! `specs/Spiral.antt`. The spiral is GraCT's idea (Brisaboa, Gómez-Brandón, Navarro and Paramá,
//! SPIRE 2016). Its order is this project's own.
#![tactic(auto)]

mod moves;
mod ring_place;
mod rings;

pub use moves::{decode_move, encode_move};
pub use rings::ring;
