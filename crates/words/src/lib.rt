// What the examples' questions are about.
#![tactic(auto)]

ghost use Rattle.std.specs.Prelude.{◌≡◌};

use jsonb::{Kind, Value, View};
use output::HexWord;
use std::fmt;
use std::fmt::{Display, Formatter};
use value_words::Words;

// A container of a document.
#[derive(Clone, Copy)]
pub struct Container<'a> {
    pub doc: &'a [u8],
    pub view: View,
}

impl<'a> Container<'a> {
    // The document's root; where that is no container, one that no document has.
    pub fn root(doc: &'a [u8]) -> Container<'a>
        ensures { result.doc.now ≡ doc.now }
    {
        if let Ok(Value::Container(view)) = jsonb::deserialize(doc) {
            return Container { doc, view };
        }
        let kind = Kind {
            object: false,
            large: false,
        };
        let view = View {
            start: 0,
            size: 0,
            count: 0,
            kind,
        };
        Container { doc, view }
    }

    // Its view in another document.
    pub fn in_doc<'b>(self, doc: &'b [u8]) -> Container<'b>
        ensures doc { result.doc.now ≡ doc.now }
        ensures view { result.view ≡ self.entry.view }
    {
        let view = self.view;
        Container { doc, view }
    }

    // Its view with another count.
    pub fn with_count(self, count: u32) -> Container<'a>
        ensures doc { result.doc.now ≡ self.entry.doc.now }
        ensures count { result.view.count ≡ count }
        ensures rest { (result.view.start ≡ self.entry.view.start) × (result.view.size ≡ self.entry.view.size) × (result.view.kind ≡ self.entry.view.kind) }
    {
        let doc = self.doc;
        let view = View { count, ..self.view };
        Container { doc, view }
    }
}

impl Display for Container<'_> {
    fn fmt<W: fmt::Write>(&self, f: &mut Formatter<W>) -> fmt::Result {
        write!(f, "{} in {}", Words(self.view), HexWord(self.doc))
    }
}
