//! A shelf and a sink that keep the calls made of them, and tell them.

ghost use Rattle.std.specs.Prelude.{map, Some, option_map, string_bytes};
ghost use Rattle.board_outside.specs.Files.{file_named};

use board_outside::{Failed, PutFault, Shelf, Sink};
use outside_doubles::{SlowShelf, SlowSink};
use std::alloc::Global;
use std::process::Abort;

/// A fetch that was made: the file and the place, and how many bytes came, none where it failed.
#[derive(Drop)]
pub struct MadeFetch {
    pub name: String,
    pub at: u64,
    pub came: Option<usize>,
}

/// A slow shelf that keeps the fetches made of it. Where there is no memory to keep one, the test ends.
#[derive(Drop)]
pub struct ToldShelf<'a, R: Abort> {
    pub inner: SlowShelf,
    /// The latest first.
    pub made: Vec<MadeFetch>,
    pub rt: &'a R,
    pub alloc: Global,
}

impl<'a, R: Abort> Shelf for ToldShelf<'a, R> {
    ghost files = { λ shelf. Some (file_named shelf.inner.inner.files.items) };

    ghost faults = { λ shelf. shelf.inner.inner.faults };

    ghost failed_name = { λ shelf. shelf.inner.inner.last.items };

    ghost fetches = { λ shelf. Some (map (λ made. record {
      name = string_bytes made.name;
      at = made.at;
      came = made.came;
    }) shelf.made.items) };

    fn fetch(&mut self, name: &str, at: u64, into: &mut [u8]) -> Result<usize, Failed> {
        let result = self.inner.fetch(name, at, into);
        let made = MadeFetch {
            name: String::from_str(self.alloc, name).expect(self.rt, "memory for a name"),
            at,
            came: result.ok(),
        };
        self.made
            .insert(0, made)
            .expect(self.rt, "memory for a fetch");
        result
    }
}

/// A slow sink that keeps how many bytes each put took, none where it answered a fault. Where there is no memory to
/// keep one, the test ends.
#[derive(Drop)]
pub struct ToldSink<'a, R: Abort> {
    pub inner: SlowSink,
    /// The latest first.
    pub made: Vec<Option<usize>>,
    pub rt: &'a R,
}

impl<'a, R: Abort> Sink for ToldSink<'a, R> {
    ghost taken = { λ sink. Some sink.inner.inner.bytes.items };

    ghost faults = { λ sink. sink.inner.inner.faults };

    ghost puts = { λ sink. Some (map (λ took. record { took = took }) sink.made.items) };

    fn put(&mut self, piece: &[u8]) -> Result<usize, PutFault> {
        let result = self.inner.put(piece);
        self.made
            .insert(0, result.ok())
            .expect(self.rt, "memory for a put");
        result
    }
}
