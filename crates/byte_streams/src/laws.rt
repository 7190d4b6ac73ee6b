//! The laws of streams.

// Nothing is done here: a function's contract is the law, so a check of this crate proves it.

ghost use Rattle.std.specs.Prelude.{◌≡◌};
ghost use Rattle.text_lines.specs.declared.limits.TheConstants.{MAX_INPUT};
ghost use Rattle.byte_streams.specs.declared.rooms.TheConstants.{MAX_PIECE};
ghost use Rattle.byte_streams.specs.declared.held_line.TheConstants.{MAX_LINE};

/// The most bytes of an input, of those that are read at a time, and of a line of it, each as a number.
pub fn the_limits_of_an_input_in_numbers()
    ensures input { MAX_INPUT ≡ 67_108_864 }
    ensures piece { MAX_PIECE ≡ 65_536 }
    ensures line { MAX_LINE ≡ 63 }
{}
