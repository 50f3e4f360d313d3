ghost use Rattle.image_model.specs.declared.place.Place.TheVariants.{Byte, Whole};
ghost use Rattle.std.specs.Prelude.{◌≡◌, ◌<◌, ◌≤◌, IfOk, OnOk, IfErr};
ghost use Rattle.pe_layout.specs.CliHeader.{entry_token_of};
ghost use Rattle.image_model.specs.Faults.{HasTables, IsImageFault};
ghost use Rattle.image_model.specs.Streams.{tables_of, strings_of, user_of, guids_of, blobs_of};

use crate::cli::{entry_token, has_cli_header};
use crate::named::{Streams, streams_of};
use image_model::Place;
use metadata_tables::TableView;
use pe_layout::{PeFault, PeView};
use std::marker::Model;

/// A demand that an image fails, and where: the first, I1 to I7.
#[derive(Debug, Clone, Copy, PartialEq, Eq)]
pub struct Unmet {
    /// The number of the demand.
    pub rule: u8,
    /// The place that it names.
    pub at: Place,
}

/// An image that meets the demands on its headers, its metadata root and its stream of tables, I1 to I7. Contracts see it
/// as the bytes of its file.
#[derive(Drop)]
pub struct Image<'a> {
    pe: PeView<'a>,
    tables: TableView<'a>,
    streams: Streams<'a>,
}

impl<'a> Model for Image<'a> {
    ghost use Rattle.std.specs.Prelude.{ℕ, List};
    ghost use Rattle.image_streams.specs.Opened.{IsOpened};

    ghost Value = { List ℕ };

    ghost view = { λ it. it.pe };

    ghost invariant = { λ it. IsOpened it.pe it.tables it.streams.strings.now it.streams.user.now it.streams.guids.now it.streams.blobs.now };
}

/// Opens an image. Takes no memory, and looks at each header once.
///
/// # Errors
///
/// The first of the demands I1 to I7 that the file fails, with its place (II.24.2, II.25).
pub fn open(file: &[u8]) -> Result<Image<'_>, Unmet>
    ensures opened { IfOk result (λ image. image ≡ file.now) }
    ensures meets { OnOk result (HasTables file.now) }
    ensures fault { IfErr result (λ unmet. IsImageFault file.now unmet.rule unmet.at) }
{
    let pe = match pe_layout::open(file) {
        Ok(pe) => pe,
        Err(fault) => return Err(unmet_headers(&fault)),
    };
    if !has_cli_header(&pe) {
        return Err(Unmet {
            rule: 4,
            at: Place::Whole,
        });
    }
    let Some(streams) = streams_of(&pe) else {
        return Err(Unmet {
            rule: 5,
            at: Place::Whole,
        });
    };
    match TableView::open(streams.tables) {
        Ok(tables) => Ok(Image {
            pe,
            tables,
            streams,
        }),
        Err(fault) => Err(Unmet {
            rule: fault.rule,
            at: Place::Row {
                table: fault.table,
                row: fault.row,
            },
        }),
    }
}

/// The demand behind a fault of the headers: I1 and I2 name a byte, I3 the whole.
fn unmet_headers(fault: &PeFault) -> Unmet
    ensures rule { result.rule ≡ fault.now.rule }
    ensures byte { fault.now.rule < 3 → result.at ≡ Byte fault.now.at }
    ensures whole { 3 ≤ fault.now.rule → result.at ≡ Whole }
{
    let at = if fault.rule < 3 {
        Place::Byte(fault.at)
    } else {
        Place::Whole
    };
    Unmet {
        rule: fault.rule,
        at,
    }
}

impl<'a> Image<'a> {
    /// The stream of tables.
    pub fn tables(&self) -> &TableView<'a>
        ensures tables { result.now ≡ tables_of self.now }
        ensures meets { HasTables self.now }
    {
        &self.tables
    }

    /// The bytes of `#Strings`.
    pub fn strings(&self) -> &'a [u8]
        ensures { result.now ≡ strings_of self.now }
    {
        self.streams.strings
    }

    /// The bytes of `#US`.
    pub fn user(&self) -> &'a [u8]
        ensures { result.now ≡ user_of self.now }
    {
        self.streams.user
    }

    /// The bytes of `#GUID`.
    pub fn guids(&self) -> &'a [u8]
        ensures { result.now ≡ guids_of self.now }
    {
        self.streams.guids
    }

    /// The bytes of `#Blob`.
    pub fn blobs(&self) -> &'a [u8]
        ensures { result.now ≡ blobs_of self.now }
    {
        self.streams.blobs
    }

    /// The token of the entry point, 0 for none.
    pub fn entry_token(&self) -> u32
        ensures { result ≡ entry_token_of self.now }
    {
        entry_token(&self.pe)
    }

    /// The file's headers and the map of its sections.
    pub fn pe(&self) -> &PeView<'a>
        ensures { result.now ≡ self.now }
    {
        &self.pe
    }
}
