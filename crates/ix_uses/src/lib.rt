//! The law on uses of buffers, over names alone: what is held before and after buffers were filled.
#![tactic(auto)]

ghost use Rattle.ix_uses.specs.Uses.{BuffersStay, NoUseComesBack};

/// Nothing happens here: the contract says what is true where buffers were filled, each of which is then held in its next use, and no other
/// came or went.
///
/// - `stay`: each buffer is held as often as before.
/// - `uses`: a buffer that was held once, and is held in the same use before and after, was not filled, where fewer than 2^32 were filled.
pub fn uses_are_told()
    ensures stay { BuffersStay }
    ensures uses { NoUseComesBack }
{}
