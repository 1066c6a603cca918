// A text that is in the language. It begins as the empty script, and only `check` fills it.
ghost use Rattle.std.specs.Prelude.{◌≡◌, true, []};
ghost use Rattle.script.specs.Faults.{is_script};

#[derive(Clone, Copy, Drop)]
pub struct CheckedScript<'a> {
    pub(crate) text: &'a [u8],
    ghost sound: { is_script text.now ≡ true },
}

impl<'a> CheckedScript<'a> {
    // The empty script.
    pub fn new() -> CheckedScript<'a>
        ensures { result.text.now ≡ [] }
    {
        CheckedScript { text: b"" }
    }
}
