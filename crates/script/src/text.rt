// What a checked script holds.
ghost use Rattle.std.specs.Prelude.{◌≡◌};
ghost use Rattle.script.specs.Scripts.{Script};

use crate::script::CheckedScript;

impl<'a> CheckedScript<'a> {
    // The text, which is in the language.
    pub fn text(&self) -> &'a [u8]
        ensures held { result.now ≡ self.now.text.now }
        ensures language { Script result.now }
    {
        self.text
    }
}
