// Plays a text and compares its listing with the expected one.
use session::text::listing_of;

// A text, by its name, and the listing that it must give.
#[derive(Clone, Copy)]
pub struct Edge<'a> {
    pub name: &'a str,
    pub text: &'a [u8],
    pub expected: &'a str,
}

// So short that most edges of a table take one line; a table of constants cannot call a function, and would take five each.
pub(crate) fn expect<'a>(name: &'a str, text: &'a [u8], expected: &'a str) -> Edge<'a> {
    Edge {
        name,
        text,
        expected,
    }
}

impl Edge<'_> {
    pub(crate) fn play(&self, rt: &HostRuntime) -> anyhow::Result<()> {
        let listing = listing_of(rt.alloc(), self.text)?;
        if listing.as_str() == self.expected {
            println!(rt; "{}: as expected", self.name)?;
        } else {
            println!(rt; "{}: got\n{listing}", self.name)?;
        }
        Ok(())
    }
}

pub(crate) fn play_all(rt: &HostRuntime, edges: &[Edge<'_>]) -> anyhow::Result<()> {
    for edge in edges {
        edge.play(rt)?;
    }
    Ok(())
}
