// The number, the layer and the site of a refusal.
ghost use Rattle.terms.specs.Refusals.{layer_of, number_of, refusal_line, site_of};
ghost use Rattle.std.specs.Prelude.{◌≡◌, Some};

use super::Refusal;
use crate::layer::Layer;
use crate::site::Site;
use std::error::Error;
use std::fmt;

impl Refusal {
    // The number that stands for it. No `From` for `u8`: a refusal carries more than a number, and the name says which one is meant.
    pub fn number(self) -> u8
        ensures { result ≡ number_of self }
    {
        match self {
            Refusal::BlockLength => 1,
            Refusal::NoSuchBlock => 2,
            Refusal::FileFull => 3,
            Refusal::BufferShort => 4,
            Refusal::PenOut => 5,
            Refusal::WrongPen => 6,
            Refusal::PartTooLong => 7,
            Refusal::Get(_, _) => 10,
            Refusal::Put(_, _) => 11,
            Refusal::RootDiffers(_) => 12,
            Refusal::NoRoom => 13,
            Refusal::LogForm(_) => 14,
            Refusal::SealForm => 20,
            Refusal::SealPastSpan => 21,
            Refusal::SlipForm(_) => 30,
            Refusal::OtherSeal => 31,
            Refusal::SlipRoot => 32,
        }
    }

    pub fn layer(self) -> Layer
        ensures { result ≡ layer_of self }
    {
        match self {
            Refusal::BlockLength
            | Refusal::NoSuchBlock
            | Refusal::FileFull
            | Refusal::BufferShort
            | Refusal::PenOut
            | Refusal::WrongPen => Layer::Vault,
            Refusal::PartTooLong => Layer::Hash,
            Refusal::Get(_, _) | Refusal::Put(_, _) | Refusal::NoRoom | Refusal::LogForm(_) =>
                Layer::Store,
            Refusal::RootDiffers(_) => Layer::Tree,
            Refusal::SealForm | Refusal::SealPastSpan => Layer::Seal,
            Refusal::SlipForm(_) | Refusal::OtherSeal | Refusal::SlipRoot => Layer::Slip,
        }
    }

    // What it points at, if anything.
    pub fn site(self) -> Option<Site>
        ensures { result ≡ site_of self }
    {
        match self {
            Refusal::Get(place, _) | Refusal::Put(place, _) => Some(Site::Record(place)),
            Refusal::RootDiffers(number) => Some(Site::Block(number)),
            Refusal::LogForm(byte) | Refusal::SlipForm(byte) => Some(Site::Byte(byte)),
            _ => None,
        }
    }
}

impl fmt::Display for Refusal {
    ghost output = { λ r. Some (refusal_line r) };

    fn fmt<W: fmt::Write>(&self, f: &mut fmt::Formatter<W>) -> fmt::Result {
        let offset = self.site().map_or(0, Site::offset);
        write!(f, "refused {} at {offset}", self.number())
    }
}

impl Error for Refusal {}
