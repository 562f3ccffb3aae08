// The words that start a line.
#![tactic(auto)]

ghost use Rattle.std.specs.Prelude.{◌≡◌, ◌==◌, length};
ghost use Rattle.std.specs.List.{zip, take_while};
ghost use Rattle.text_keywords.specs.Keywords.{text_of, keyword_of, longest, keywords};

use step_kinds::Kind;
use text_fields::BadByte;

// The words: `open`, and that of each kind of step.
#[derive(Clone, Copy)]
pub enum Keyword {
    Open,
    Step(Kind),
}

impl Keyword {
    const ALL: [Keyword; 6] = [
        Keyword::Open,
        Keyword::Step(Kind::New),
        Keyword::Step(Kind::Set),
        Keyword::Step(Kind::Get),
        Keyword::Step(Kind::Async),
        Keyword::Step(Kind::End),
    ];

    // The bytes of the word.
    #[tactic(auto, unfolding(crate::specs::Keywords::text_of))]
    fn text(self) -> &'static [u8]
        ensures { result.now ≡ text_of self }
    {
        match self {
            Keyword::Open => b"open",
            Keyword::Step(Kind::New) => b"new",
            Keyword::Step(Kind::Set) => b"set",
            Keyword::Step(Kind::Get) => b"get",
            Keyword::Step(Kind::Async) => b"async",
            Keyword::Step(Kind::End) => b"end",
        }
    }
}

// How many bytes two byte strings begin with alike.
fn common(a: &[u8], b: &[u8]) -> usize
    ensures { result ≡ length (take_while (λ p. p.0 == p.1) (zip a.now b.now)) }
{
    a.iter().zip(b).take_while(|(x, y)| x == y).count()
}

// How far the field goes along with some word.
fn furthest(field: &[u8]) -> usize
    ensures { result ≡ longest field.now keywords }
{
    let mut most = 0;
    for word in Keyword::ALL {
        most = common(field, word.text()).max(most);
    }
    most
}

// The word that the field is; or the byte with which it stops being the start of any.
pub fn keyword_of(field: &[u8]) -> Result<Keyword, BadByte>
    ensures { result ≡ keyword_of field.now }
{
    for keyword in Keyword::ALL {
        if keyword.text() == field {
            return Ok(keyword);
        }
    }
    Err(BadByte {
        place: furthest(field),
    })
}
