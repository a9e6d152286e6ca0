// Where the fields of a row stand (specs/), its laws (proofs/), and parts of a row that may be left out.
#![tactic(auto)]

ghost use Rattle.std.specs.Prelude.{◌≡◌, ℕ};
ghost use Rattle.layout.specs.Form.{Form};
ghost use Rattle.layout.specs.Field.{read_at};
ghost use Rattle.layout.specs.Layout.{optional};
ghost use Rattle.layout.specs.Says.{says};
ghost use Rattle.layout.proofs.Lawful.{Lawful};
ghost use Rattle.offsets.specs.Offset.{located, optional_at};

use layout::Question;

// The places of a part of a row, and its numbers.
pub trait Part: Sized {
    // What stands there, how it is read, and its places.
    ghost Value: { Type 0 };

    ghost form: { Form Value };

    ghost places: { ℕ → Value → Self };

    fn part_at(row: &[u8], at: usize) -> Result<(Self, usize), Question>
        ensures { says result ≡ located (places at) (read_at form row.now at) };

    ghost lawful: { Lawful form };
}

// A flag, and the part if it is 1.
pub fn optional_at<P: Part>(row: &[u8], at: usize) -> Result<(Option<P>, usize), Question>
    ensures { says result ≡ located (optional_at P.form P.places at) (read_at (optional P.form) row.now at) }
{
    let (present, at1) = fields::flag_at(row, at)?;
    if !present {
        return Ok((None, at1));
    }
    let (its, at2) = P::part_at(row, at1)?;
    Ok((Some(its), at2))
}
