//! A digest of results.

use jk_math::Image;

/// The digest of what was taken so far (FNV-1a, by 64 bits).
#[derive(Clone, Copy)]
pub(crate) struct Digest {
    pub(crate) state: u64,
}

impl Digest {
    /// The digest of nothing.
    pub(crate) fn new() -> Digest {
        Digest {
            state: 0xCBF2_9CE4_8422_2325,
        }
    }

    fn take_number(&mut self, number: u64) {
        self.state = (self.state ^ number).wrapping_mul(0x0000_0100_0000_01B3);
    }

    /// Takes bytes, and how many they are.
    pub(crate) fn take(&mut self, bytes: &[u8]) {
        for byte in bytes {
            self.take_number(*byte as u64);
        }
        self.take_number(bytes.len() as u64);
    }

    /// Takes samples, none of which is negative, and how many they are.
    pub(crate) fn take_samples(&mut self, samples: &[i32]) {
        for sample in samples {
            self.take_number(sample.unsigned_abs() as u64);
        }
        self.take_number(samples.len() as u64);
    }

    /// Takes the samples of an image, none of which is negative.
    pub(crate) fn take_image(&mut self, image: &Image) {
        let planes = image.planes();
        for at in 0..planes.len() {
            self.take_samples(planes.plane(at));
        }
    }
}
