// A sample: what it plays, in plain words, and its session text.
use session::text::listing_of;
use std::io;

#[derive(Clone, Copy)]
pub(crate) struct Sample {
    pub(crate) name: &'static str,
    pub(crate) text: &'static str,
}

impl Sample {
    // Prints the name and the listing.
    pub(crate) fn play(&self, rt: &HostRuntime) -> io::Result<()> {
        println!(rt; "{}", self.name)?;
        let listing = listing_of(rt.alloc(), self.text.as_bytes())?;
        rt.write_all(listing.as_bytes())
    }
}
