//! Notes of refused lines.

ghost use Rattle.std.specs.Prelude.{◌≡◌, Bool, true};

use pon_line::LineRefusal;
use pon_plant::Plant;

/// Where refusals are noted.
pub trait Notes {
    /// Whether a refusal is noted.
    ghost noted: { Self → Bool };

    /// Notes that the line of this number, counted from 1, is refused at the plant.
    fn note(&mut self, number: u64, plant: &Plant, line: &[u8], refusal: LineRefusal)
        ensures noted { noted self.new ≡ true };
}
