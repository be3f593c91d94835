//! What the applications answer: echo, a key-value store by lines, and a text that is pushed. Each answer is a function of the bytes that
//! were told, with a plain program that computes it.
#![tactic(auto)]

mod application;
mod key_value;
mod laws;
mod request;
mod store;
#[cfg(test)]
mod tests;

pub use application::Application;
pub use key_value::{Session, echo_answer, kv_answer, push_answer};
pub use laws::answers_grow;
pub use request::{KEY_MOST, LINE_MOST, Request, VALUE_MOST, request_of};
pub use store::{Entry, KEYS_MOST, carry_out};
