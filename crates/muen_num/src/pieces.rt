//! Texts in pieces, so that one text can be written to a string and put to a sink.
use std::fmt;

/// A text in eight pieces, the last ones maybe empty; it takes no memory. It is made of its first
/// pieces, one to eight, as in `("rule ", number, ": ", name).into()`.
#[derive(Clone, Copy, Debug)]
pub struct Pieces<'a>(
    pub &'a str,
    pub &'a str,
    pub &'a str,
    pub &'a str,
    pub &'a str,
    pub &'a str,
    pub &'a str,
    pub &'a str,
);

type Two<'a> = (&'a str, &'a str);

type Three<'a> = (&'a str, &'a str, &'a str);

type Four<'a> = (&'a str, &'a str, &'a str, &'a str);

type Five<'a> = (&'a str, &'a str, &'a str, &'a str, &'a str);

type Six<'a> = (&'a str, &'a str, &'a str, &'a str, &'a str, &'a str);

type Seven<'a> = (
    &'a str,
    &'a str,
    &'a str,
    &'a str,
    &'a str,
    &'a str,
    &'a str,
);

type Eight<'a> = (
    &'a str,
    &'a str,
    &'a str,
    &'a str,
    &'a str,
    &'a str,
    &'a str,
    &'a str,
);

/// The pieces are written one after another.
impl fmt::Display for Pieces<'_> {
    ghost use Rattle.std.specs.Prelude.{Some};
    ghost use Rattle.muen_num.specs.Pieces.{whole};

    ghost output = { λ p. Some (whole p) };

    fn fmt<W: fmt::Write>(&self, f: &mut fmt::Formatter<W>) -> fmt::Result {
        let Pieces(a, b, c, d, e, g, h, last) = *self;
        write!(f, "{a}{b}{c}{d}{e}{g}{h}{last}")
    }
}

impl<'a> From<&'a str> for Pieces<'a> {
    ghost use Rattle.std.specs.Prelude.{◌≡◌};
    ghost use Rattle.muen_num.specs.Pieces.{whole};

    ghost from_gives = { λ t p. whole p ≡ t.now };

    fn from(a: &'a str) -> Pieces<'a> {
        Pieces(a, "", "", "", "", "", "", "")
    }
}

impl<'a> From<Two<'a>> for Pieces<'a> {
    ghost use Rattle.std.specs.Prelude.{◌≡◌, ◌++◌};
    ghost use Rattle.muen_num.specs.Pieces.{whole};

    ghost from_gives = { λ t p. whole p ≡ t.0.now ++ t.1.now };

    fn from((a, b): Two<'a>) -> Pieces<'a> {
        Pieces(a, b, "", "", "", "", "", "")
    }
}

impl<'a> From<Three<'a>> for Pieces<'a> {
    ghost use Rattle.std.specs.Prelude.{◌≡◌, ◌++◌};
    ghost use Rattle.muen_num.specs.Pieces.{whole};

    ghost from_gives = { λ t p. whole p ≡ t.0.now ++ (t.1.now ++ t.2.now) };

    fn from((a, b, c): Three<'a>) -> Pieces<'a> {
        Pieces(a, b, c, "", "", "", "", "")
    }
}

impl<'a> From<Four<'a>> for Pieces<'a> {
    ghost use Rattle.std.specs.Prelude.{◌≡◌, ◌++◌};
    ghost use Rattle.muen_num.specs.Pieces.{whole};

    ghost from_gives = { λ t p. whole p ≡ t.0.now ++ (t.1.now ++ (t.2.now ++ t.3.now)) };

    fn from((a, b, c, d): Four<'a>) -> Pieces<'a> {
        Pieces(a, b, c, d, "", "", "", "")
    }
}

impl<'a> From<Five<'a>> for Pieces<'a> {
    ghost use Rattle.std.specs.Prelude.{◌≡◌, ◌++◌};
    ghost use Rattle.muen_num.specs.Pieces.{whole};

    ghost from_gives = { λ t p. whole p ≡ t.0.now ++ (t.1.now ++ (t.2.now ++ (t.3.now ++ t.4.now))) };

    fn from((a, b, c, d, e): Five<'a>) -> Pieces<'a> {
        Pieces(a, b, c, d, e, "", "", "")
    }
}

impl<'a> From<Six<'a>> for Pieces<'a> {
    ghost use Rattle.std.specs.Prelude.{◌≡◌, ◌++◌};
    ghost use Rattle.muen_num.specs.Pieces.{whole};

    ghost from_gives = { λ t p. whole p ≡ t.0.now ++ (t.1.now ++ (t.2.now ++ (t.3.now ++ (t.4.now ++ t.5.now)))) };

    fn from((a, b, c, d, e, f): Six<'a>) -> Pieces<'a> {
        Pieces(a, b, c, d, e, f, "", "")
    }
}

impl<'a> From<Seven<'a>> for Pieces<'a> {
    ghost use Rattle.std.specs.Prelude.{◌≡◌, ◌++◌};
    ghost use Rattle.muen_num.specs.Pieces.{whole};

    ghost from_gives = { λ t p. whole p ≡ t.0.now ++ (t.1.now ++ (t.2.now ++ (t.3.now ++
        (t.4.now ++ (t.5.now ++ t.6.now))))) };

    fn from((a, b, c, d, e, f, g): Seven<'a>) -> Pieces<'a> {
        Pieces(a, b, c, d, e, f, g, "")
    }
}

impl<'a> From<Eight<'a>> for Pieces<'a> {
    ghost use Rattle.std.specs.Prelude.{◌≡◌, ◌++◌};
    ghost use Rattle.muen_num.specs.Pieces.{whole};

    ghost from_gives = { λ t p. whole p ≡ t.0.now ++ (t.1.now ++ (t.2.now ++ (t.3.now ++
        (t.4.now ++ (t.5.now ++ (t.6.now ++ t.7.now)))))) };

    fn from((a, b, c, d, e, f, g, h): Eight<'a>) -> Pieces<'a> {
        Pieces(a, b, c, d, e, f, g, h)
    }
}
