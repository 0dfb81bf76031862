// The shape of a line: which places hold a space, a digit, or a part's byte.
ghost use Rattle.std.specs.Prelude.{◌≡◌};
ghost use Rattle.lines.specs.Grammar.{fits_place, has_shape};

// Whether a byte may stand in a place: `.` takes any byte but a space, `0` any digit, another place that byte itself.
#[tactic(auto, unfolding(crate::specs::Grammar::fits_place))]
fn fits_place(place: u8, byte: u8) -> bool
    ensures { result ≡ fits_place place byte }
{
    match place {
        b'.' => byte != b' ',
        b'0' => byte.is_ascii_digit(),
        _ => byte == place,
    }
}

// Whether a line is as long as a shape and each byte fits its place.
pub fn shaped(shape: &[u8], line: &[u8]) -> bool
    ensures { result ≡ has_shape shape.now line.now }
{
    if shape.len() != line.len() {
        return false;
    }
    shape
        .iter()
        .zip(line)
        .all(|(place, byte)| fits_place(*place, *byte))
}
