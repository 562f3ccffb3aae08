// The reader of a line: the one lent line, and where its next field starts.
#![tactic(auto)]

ghost use Rattle.std.specs.Prelude.{◌≡◌};
ghost use Rattle.text_fields.specs.Fields.{next_start, FieldOf};

// A start past the line says that there are no more fields.
#[derive(Clone, Copy)]
pub struct Reader<'a> {
    pub line: &'a [u8],
    pub at: usize,
}

impl<'a> Reader<'a> {
    // The reader of a line from the place `at` on.
    pub fn starting(line: &'a [u8], at: usize) -> Reader<'a>
        ensures { (result.line ≡ line.entry) × (result.at ≡ at) }
    {
        Reader { line, at }
    }

    // Its next field, as that part of the line.
    pub fn field(self) -> &'a [u8]
        ensures { FieldOf self.entry.line self.entry.at result }
    {
        text_fields::field(self.line, self.at)
    }

    // The reader past that field.
    pub fn after(self) -> Reader<'a>
        ensures { (result.line ≡ self.entry.line) × (result.at ≡ next_start self.entry.line.now self.entry.at) }
    {
        Reader {
            line: self.line,
            at: text_fields::next_start(self.line, self.at),
        }
    }
}
