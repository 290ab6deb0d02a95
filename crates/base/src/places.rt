// Writes into a lent buffer.
ghost use Rattle.std.specs.Prelude.{◌≡◌};
ghost use Rattle.base.specs.Places.{overwritten, written};
ghost use Rattle.base.specs.Refusals.{outcome};

use crate::refusal::Refusal;

// Writes the text in front and answers how long it is. Later places stay; where there are too few, all do.
pub fn write<T: Copy>(text: &[T], places: &mut [T]) -> Result<usize, Refusal>
    ensures answers_the_length { outcome (λ n. n) result ≡ written text.now places.old }
    ensures fills_the_front { places.new ≡ overwritten text.now places.old }
{
    let len = text.len();
    if places.len() < len {
        return Err(Refusal::TooFewPlaces);
    }
    places[0..len].copy_from_slice(text);
    Ok(len)
}
