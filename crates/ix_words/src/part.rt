// The parts of a text.
ghost use Rattle.std.specs.Prelude.{◌≡◌, ◌<◌, [], ◌∷◌, length, IfSome};
ghost use Rattle.ix_words.specs.Parts.{parts, parts_after};

/// The first part, and what stands behind the mark after it.
#[tactic(auto, using(crate::proofs::SplitLaws::part_steps))]
pub fn split_part(bytes: &[u8], mark: u8) -> (&[u8], Option<&[u8]>)
    ensures split { parts mark bytes.now ≡ result.0.now ∷ parts_after mark result.1 }
    ensures shorter { IfSome result.1 (λ rest. length rest.now < length bytes.now) }
{
    for (i, byte) in bytes.iter().enumerate() {
        if *byte == mark {
            return (&bytes[..i], Some(&bytes[i + 1..]));
        }
    }
    (bytes, None)
}
