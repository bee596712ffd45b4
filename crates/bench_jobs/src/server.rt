//! The same at the server: windows that are not kept, each time another.

use crate::calls::{Asked, encoded, view_at, with_windows};
use crate::chance::Chance;
use crate::digest::Digest;
use crate::drawing::{Slide, grey, photograph};
use crate::scale::Scale;
use jk_math::Fault;
use jk_store::{Archive, MemoryShelf, Shelf};
use jk_web::{Cache, Octets, Request, answer_with};
use jk_window::View;
use std::alloc::Global;

/// An image of the catalogue: its name, and its size.
struct Kept {
    name: &'static str,
    width: usize,
    height: usize,
}

static CATALOGUE: [Kept; 3] = [
    Kept {
        name: "slide",
        width: 4096,
        height: 4096,
    },
    Kept {
        name: "map",
        width: 1280,
        height: 1024,
    },
    Kept {
        name: "photograph",
        width: 640,
        height: 480,
    },
];

/// The archive of the images, and the places of the slide's tissue.
#[derive(Drop)]
struct Shown {
    archive: Archive<MemoryShelf>,
    places: Vec<(u32, u32)>,
}

impl Shown {
    fn new(alloc: Global, seed: u64, scale: Scale) -> Result<Shown, Fault> {
        let mut shelf = MemoryShelf::new(alloc);
        let mut places = Vec::new(alloc);
        for (number, kept) in CATALOGUE.iter().enumerate() {
            let size = scale.size(kept.width, kept.height);
            let drawn = match number {
                0 => {
                    let Slide { bytes, cells } = Slide::new(alloc, seed, size)?;
                    places = cells;
                    bytes
                }
                1 => grey(alloc, seed, size)?,
                _ => photograph(alloc, seed, size)?,
            };
            let file = encoded(alloc, drawn, with_windows(alloc))?;
            let name = format!(in alloc; "{}.jp2", kept.name)?;
            shelf.write(alloc, name.as_str(), &file)?;
        }
        Ok(Shown {
            archive: Archive::open(alloc, shelf)?,
            places,
        })
    }
}

/// The request for a window.
fn request(alloc: Global, name: &str, view: View) -> Result<Request, Fault> {
    let View {
        reduce,
        x,
        y,
        width,
        height,
        layers,
    } = view;
    let mut target = format!(in alloc; "/images/{name}/window?x={x}&y={y}&w={width}&h={height}")?;
    target.push_str(format!(in alloc; "&r={reduce}")?.as_str())?;
    if let Some(layers) = layers {
        target.push_str(format!(in alloc; "&layers={layers}")?.as_str())?;
    }
    Ok(Request {
        method: Octets::new(Vec::from_slice(alloc, b"GET")?),
        target: Octets::new(Vec::from_slice(alloc, target.as_bytes())?),
        closes: false,
    })
}

/// Requests for windows of some images are answered, a few layers first and then all of another
/// window.
pub(crate) fn server(alloc: Global, seed: u64, scale: Scale) -> Result<Digest, Fault> {
    let mut digest = Digest::new();
    let Shown {
        mut archive,
        places,
    } = Shown::new(alloc, seed, scale)?;
    let mut cache = Cache::new(alloc, 16)?;
    let mut chance = Chance::new(seed, 21);
    let mut asked = Asked::new(alloc);
    for number in 0..scale.count(960) {
        let (image, places) = match chance.below(8) {
            6 => (1, &places[..0]),
            7 => (2, &places[..0]),
            _ => (0, &places[..]),
        };
        let kept = &CATALOGUE[image];
        let size = scale.size(kept.width, kept.height);
        let side = if chance.below(3) == 0 { 512 } else { 256 };
        let layers = if number % 3 == 2 { None } else { Some(2) };
        let view = view_at(&mut chance, places, size, number % 4, side, layers);
        if !asked.first(image, view)? {
            continue;
        }
        let request = request(alloc, kept.name, view)?;
        let reply = answer_with(alloc, &request, &mut archive, &mut cache)?;
        digest.take(reply.bytes.as_slice());
    }
    Ok(digest)
}
