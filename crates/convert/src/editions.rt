// The editions that there are.
ghost use Rattle.std.specs.Prelude.{◌≡◌};
ghost use Rattle.file.specs.Rules.Layout.{width_in};
ghost use Rattle.convert.specs.Inner.ConversionAnswers.{edition_in};

use file::layout::{OFFSET_WIDTH, WIDE_OFFSET_WIDTH};

#[derive(Clone, Copy)]
pub enum Edition {
    One,
    Two,
}

// The bytes of an offset in an edition: "In edition 2 offsets and length have 4 bytes". A number and no enum: each size and place is a product
// with it.
pub fn width_in(edition: Edition) -> usize
    ensures { result ≡ width_in (edition_in edition) }
{
    match edition {
        Edition::One => OFFSET_WIDTH,
        Edition::Two => WIDE_OFFSET_WIDTH,
    }
}
