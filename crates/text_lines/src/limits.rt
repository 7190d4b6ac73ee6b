//! How long an input may be.

ghost use Rattle.std.specs.Prelude.{◌≡◌};
ghost use Rattle.text_lines.specs.declared.limits.TheConstants.{MAX_INPUT};

/// The most bytes of an input: a file, or what is read from a stream.
pub const MAX_INPUT: usize = 67_108_864;

/// The most bytes of an input, in numbers.
pub fn the_most_input_in_numbers()
    ensures { MAX_INPUT ≡ 67108864 }
{}
