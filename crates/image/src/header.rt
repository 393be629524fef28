// The header: version, order, counts and reader, in the image's first eight bytes.
ghost use Rattle.std.specs.Prelude.{◌≡◌, ◌≤◌, true};
ghost use Rattle.image.specs.Layout.{counts_fit, entry_count, length_of_image, header_of};
ghost use Rattle.image.specs.Load.{header_read, version_checked, counts_checked};
ghost use Rattle.image.specs.declared.header.Counts.{Counts};

use labels::cell::Tag;
use labels::name::{OrderName, Parameters};
use labels::refusal::Refusal;

// The version of images that there is.
pub const VERSION: u8 = 1;

pub const HEADER_LENGTH: usize = 8;

pub const ENTRY_LENGTH: usize = 6;

pub const CODE_LIMIT: u16 = 1024;

pub const CELL_LIMIT: u16 = 4096;

// How many bytes the longest image has.
pub const LONGEST_IMAGE: usize = HEADER_LENGTH
    + ENTRY_LENGTH * (CODE_LIMIT as usize + CELL_LIMIT as usize);

// How many code entries and how many cells an image has.
#[derive(Clone, Copy, Default)]
pub struct Counts {
    pub code: u16,
    pub cells: u16,
}

#[derive(Clone, Copy, Default)]
pub struct Header {
    pub version: u8,
    pub order: OrderName,
    pub counts: Counts,
    pub reader: Tag,
}

impl Counts {
    // So many code entries and cells, refused outside the limits: 1 to 1,024 code entries and at most 4,096 cells.
    pub fn new(code: usize, cells: usize) -> Result<Counts, Refusal>
        ensures { result ≡ counts_checked (record { code = code; cells = cells }) }
    {
        if 1 <= code && code <= CODE_LIMIT as usize && cells <= CELL_LIMIT as usize {
            Ok(Counts {
                code: code as u16,
                cells: cells as u16,
            })
        } else {
            Err(Refusal::CountOutsideLimits)
        }
    }

    // Whether both counts are within their limits: 1 to 1,024 code entries and at most 4,096 cells.
    pub fn fit(self) -> bool
        ensures { result ≡ counts_fit self }
    {
        Counts::new(self.code as usize, self.cells as usize).is_ok()
    }

    // How many entries there are, code and cells.
    pub fn entries(self) -> usize
        ensures { result ≡ entry_count self }
    {
        self.code as usize + self.cells as usize
    }

    // How many bytes an image of these counts has.
    pub fn image_length(self) -> usize
        ensures { result ≡ length_of_image self }
    {
        HEADER_LENGTH + ENTRY_LENGTH * self.entries()
    }
}

impl From<[u8; HEADER_LENGTH]> for Header {
    ghost from_gives = { λ bytes header. header ≡ header_of bytes };

    fn from(bytes: [u8; HEADER_LENGTH]) -> Header {
        let [
            version_and_kind,
            p_and_q,
            code_high,
            code_low,
            cells_high,
            cells_low,
            reader_high,
            reader_low,
        ] = bytes;
        Header {
            version: version_and_kind / 16,
            order: OrderName {
                kind: version_and_kind % 16,
                parameters: Parameters {
                    p: p_and_q / 16,
                    q: p_and_q % 16,
                },
            },
            counts: Counts {
                code: u16::from_be_bytes([code_high, code_low]),
                cells: u16::from_be_bytes([cells_high, cells_low]),
            },
            reader: Tag(u16::from_be_bytes([reader_high, reader_low])),
        }
    }
}

impl Header {
    // The header of an image that is long enough to have one.
    pub fn read(image: &[u8]) -> Result<Header, Refusal>
        ensures { result ≡ header_read image.now }
    {
        let bytes = image
            .first_chunk::<HEADER_LENGTH>()
            .ok_or(Refusal::ImageTooShort)?;
        Ok(Header::from(*bytes))
    }

    // Refused for a version other than 1.
    pub fn check_version(self) -> Result<(), Refusal>
        ensures { result ≡ version_checked self }
    {
        if self.version == VERSION {
            Ok(())
        } else {
            Err(Refusal::UnknownVersion)
        }
    }
}

// How many bytes the longest image has, as a promise.
pub fn longest_image() -> usize
    ensures answer { result ≡ 30728 }
    ensures none_longer { (n : Counts) → counts_fit n ≡ true → length_of_image n ≤ result }
{
    LONGEST_IMAGE
}
