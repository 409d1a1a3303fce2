// The shapes that are timed: 1,024 gates, of which the first few are fixed, and up to 4,096 wires.
use engine::link::Link;
use random::Random;
use std::alloc::{AllocError, Global};

pub(crate) const GATES: usize = 1024;

#[derive(Drop)]
pub(crate) struct Shape {
    pub(crate) name: &'static str,
    // How many gates are fixed, the first ones.
    pub(crate) fixed: usize,
    pub(crate) links: Vec<Link>,
}

// A wire that shares with the others of its driver.
fn shared(driver: u16, driven: u16, count: u16) -> Link {
    Link {
        driver,
        driven,
        count: u32::from(count),
        bundle: driver,
    }
}

pub(crate) fn chain(heap: Global) -> Result<Shape, AllocError> {
    Ok(Shape {
        name: "chain",
        fixed: 1,
        links: (0..1023u16).map(|k| shared(k, k + 1, 255)).collect(heap)?,
    })
}

// Counts from 1 to the most.
pub(crate) fn random(heap: Global, name: &'static str, most: u16) -> Result<Shape, AllocError> {
    Ok(Shape {
        name,
        fixed: 16,
        links: random_links(heap, most)?,
    })
}

fn random_links(heap: Global, most: u16) -> Result<Vec<Link>, AllocError> {
    let mut source = Random { state: 1 };
    (0..4096u16)
        .map(|_| {
            let driver = source.below(1024);
            let driven = source.below(1024);
            let count = source.below(most);
            shared(driver, driven, count + 1)
        })
        .collect(heap)
}

// Each wire goes to a gate with a higher number.
pub(crate) fn downhill(heap: Global) -> Result<Shape, AllocError> {
    let mut source = Random { state: 2 };
    let links = (0..4096u16)
        .map(|_| {
            let driver = source.below(1023);
            let farther = source.below(1023 - driver);
            let count = source.below(256);
            shared(driver, driver + 1 + farther, count)
        })
        .collect(heap)?;
    Ok(Shape {
        name: "downhill",
        fixed: 16,
        links,
    })
}

// 32 rows of 32 gates, each wired to the next in its row and to the one below.
pub(crate) fn grid(heap: Global) -> Result<Shape, AllocError> {
    let mut source = Random { state: 3 };
    let mut links = Vec::new(heap);
    // A `for`, since a gate drives none, one or two wires.
    for k in 0..1024u16 {
        if k % 32 < 31 {
            links.push(shared(k, k + 1, source.below(256)))?;
        }
        if k < 992 {
            links.push(shared(k, k + 32, source.below(256)))?;
        }
    }
    Ok(Shape {
        name: "grid",
        fixed: 32,
        links,
    })
}

// One gate to all others and back. Inside `flat_map` nothing bounds k, so the remainder comes before the product,
// which then fits.
pub(crate) fn hub(heap: Global) -> Result<Shape, AllocError> {
    Ok(Shape {
        name: "hub",
        fixed: 2,
        links: (1..1024u16)
            .flat_map(|k| [shared(0, k, k % 256), shared(k, 0, k % 255 * 7 % 255 + 1)])
            .collect(heap)?,
    })
}

pub(crate) fn tree(heap: Global) -> Result<Shape, AllocError> {
    let mut source = Random { state: 4 };
    Ok(Shape {
        name: "tree",
        fixed: 16,
        links: (1..1024u16)
            .map(|k| shared((k - 1) / 2, k, source.below(256)))
            .collect(heap)?,
    })
}

// 64 wires from each gate of a chain to the next.
pub(crate) fn parallel(heap: Global) -> Result<Shape, AllocError> {
    let mut source = Random { state: 5 };
    Ok(Shape {
        name: "parallel wires",
        fixed: 1,
        links: (0..4096u16)
            .map(|k| shared(k / 64, k / 64 + 1, source.below(256)))
            .collect(heap)?,
    })
}

// The even gates and the odd gates, each a chain, and a wire from the last even to the last odd one.
pub(crate) fn joined(heap: Global) -> Result<Shape, AllocError> {
    let mut source = Random { state: 6 };
    let mut links: Vec<Link> = (0..1022u16)
        .map(|k| shared(k, k + 2, source.below(256)))
        .collect(heap)?;
    links.push(shared(1022, 1023, 255))?;
    Ok(Shape {
        name: "two chains that join",
        fixed: 2,
        links,
    })
}

// A register on every 64th wire.
pub(crate) fn ring(heap: Global) -> Result<Shape, AllocError> {
    Ok(Shape {
        name: "ring",
        fixed: 1,
        links: (0..1024u16)
            .map(|k| shared(k, (k + 1) % 1024, u16::from(k % 64 == 0)))
            .collect(heap)?,
    })
}

// 32 layers of 32 gates, each wired to four of the next layer.
pub(crate) fn layers(heap: Global) -> Result<Shape, AllocError> {
    let mut source = Random { state: 7 };
    let links = (0..3968u16)
        .map(|k| {
            let driver = k / 4;
            let place = source.below(32);
            let count = source.below(256);
            shared(driver, driver / 32 * 32 + 32 + place, count)
        })
        .collect(heap)?;
    Ok(Shape {
        name: "layers",
        fixed: 32,
        links,
    })
}

// The random wires with counts from 1 to 255, no two of which share.
pub(crate) fn alone(heap: Global) -> Result<Shape, AllocError> {
    let mut links = random_links(heap, 255)?;
    for (bundle, link) in (0..4096u16).zip(links.iter_mut()) {
        link.bundle = bundle;
    }
    Ok(Shape {
        name: "random, each alone",
        fixed: 16,
        links,
    })
}
