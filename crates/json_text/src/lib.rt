// JSON text (RFC 8259): its strings, with their escapes, its white space, words and numbers, and what stands between values. Every function
// takes any bytes.
#![tactic(auto)]

pub mod between; // between.rt: names, commas and closing brackets
pub mod escape; // escape.rt: one char of a string
pub mod quote; // quote.rt: a string as it is written
pub mod string; // string.rt: a whole string
pub mod token; // token.rt: white space, words and numbers
pub mod unescape; // unescape.rt: its text, laid
