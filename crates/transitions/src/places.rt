// Places of a text that isn't too long.
ghost use Rattle.std.specs.Prelude.{◌≡◌};
ghost use Rattle.characters.specs.Skipping.{skip_from};
ghost use Rattle.transitions.specs.LayerContracts.{Short};

use characters::skip;

// Where skipping from a place leads.
pub fn skipped(text: &[u8], place: u32) -> u32
    requires { Short text.now }
    ensures { result ≡ skip_from text.now place }
{
    skip(text, place as usize) as u32
}
