//! Documents from files and into files. This file opens them, and leaves the rest to reading and writing.
ghost use Rattle.std.specs.Prelude.{IfErr, IfOk, OnOk};
ghost use Rattle.ini_text.specs.Device.DeviceRefusals.{IsIoOrNoProgress};
ghost use Rattle.ini_text.specs.Options.ReadOptions.{default_parse_option, without_escapes};
ghost use Rattle.ini_text.specs.Options.WriteOptions.{IsDefaultWriteOption, with_policy};
ghost use Rattle.ini_text.specs.declared.write.option.WriteOption.{WriteOption};
ghost use Rattle.ini.specs.Documents.{HasGeneral};
ghost use Rattle.ini.specs.Files.{IsDocumentOfFile, IsNoTextOfFile, IsStopOfFile, IsWrittenToFile};
ghost use Rattle.ini.specs.Loading.{IfParse, IsNotUtf8, IsReadRefusal};
ghost use Rattle.ini.specs.Written.{written};

use crate::document::Ini;
use crate::load::without_escapes;
use ini_text::{Error, EscapePolicy, ParseOption, WriteOption};
use std::alloc::Global;
use std::fs;
use std::path::Path;
use std::rt::Files;

impl Ini {
    /// The document of a file, by the default options. The rest is as `load_from_file_opt` has it.
    pub fn load_from_file<R: Files>(rt: &R, alloc: Global, path: Path<'_>) -> Result<Ini, Error>
        ensures document { IfOk result (IsDocumentOfFile R.File.remaining default_parse_option) }
        ensures general { IfOk result HasGeneral }
        ensures fault { IfParse result (IsStopOfFile R.File.remaining default_parse_option) }
        ensures not_utf8 { IsNotUtf8 result → IsNoTextOfFile R.File.remaining }
        ensures only { IfErr result IsReadRefusal }
    {
        Ini::load_from_file_opt(rt, alloc, path, ParseOption::default())
    }

    /// The document of a file, by the default options but without escapes. The rest is as
    /// `load_from_file_opt` has it.
    pub fn load_from_file_noescape<R: Files>(
        rt: &R,
        alloc: Global,
        path: Path<'_>,
    ) -> Result<Ini, Error>
        ensures document { IfOk result (IsDocumentOfFile R.File.remaining without_escapes) }
        ensures general { IfOk result HasGeneral }
        ensures fault { IfParse result (IsStopOfFile R.File.remaining without_escapes) }
        ensures not_utf8 { IsNotUtf8 result → IsNoTextOfFile R.File.remaining }
        ensures only { IfErr result IsReadRefusal }
    {
        Ini::load_from_file_opt(rt, alloc, path, without_escapes())
    }

    /// The document of a file, which is opened and read as `read_from_bom` reads: to its end, and
    /// without one mark (the bytes EF BB BF) at its front.
    ///
    /// # Errors
    ///
    /// `Io` where the file can't be opened, as one that isn't there, or where a read of it fails;
    /// `NotUtf8`, `Parse` and `Memory` as `read_watched` has them.
    pub fn load_from_file_opt<R: Files>(
        rt: &R,
        alloc: Global,
        path: Path<'_>,
        opt: ParseOption,
    ) -> Result<Ini, Error>
        ensures document { IfOk result (IsDocumentOfFile R.File.remaining opt) }
        ensures general { IfOk result HasGeneral }
        ensures fault { IfParse result (IsStopOfFile R.File.remaining opt) }
        ensures not_utf8 { IsNotUtf8 result → IsNoTextOfFile R.File.remaining }
        ensures only { IfErr result IsReadRefusal }
    {
        let mut file = fs::open(rt, path).map_err(Error::Io)?;
        Ini::read_from_bom(alloc, &mut file, opt)
    }

    /// Writes the document's text to a file, by the default options. The rest is as `write_to_file_opt`
    /// has it.
    ///
    /// A save that fails half way leaves a file cut short: a careful caller writes to a new name beside
    /// it, and then renames that by `std::fs::rename`.
    pub fn write_to_file<R: Files>(&self, rt: &R, path: Path<'_>) -> Result<(), Error>
        ensures bytes { (w : WriteOption) → IsDefaultWriteOption w
            → OnOk result (IsWrittenToFile R.File.contents (written self.now w)) }
        ensures only { IfErr result IsIoOrNoProgress }
    {
        self.write_to_file_opt(rt, path, WriteOption::default())
    }

    /// Writes the document's text to a file, by the default options but for the policy. The rest is as
    /// `write_to_file_opt` has it.
    ///
    /// A save that fails half way leaves a file cut short: a careful caller writes to a new name beside
    /// it, and then renames that by `std::fs::rename`.
    pub fn write_to_file_policy<R: Files>(
        &self,
        rt: &R,
        path: Path<'_>,
        policy: EscapePolicy,
    ) -> Result<(), Error>
        ensures bytes { (w : WriteOption) → IsDefaultWriteOption w
            → OnOk result (IsWrittenToFile R.File.contents (written self.now (with_policy policy w))) }
        ensures only { IfErr result IsIoOrNoProgress }
    {
        let option = WriteOption {
            escape_policy: policy,
            ..WriteOption::default()
        };
        self.write_to_file_opt(rt, path, option)
    }

    /// Writes the document's text to a file, which is made if it isn't there, and cut to nothing if it
    /// is. Takes no memory, and flushes nothing.
    ///
    /// A save that fails half way leaves a file cut short: a careful caller writes to a new name beside
    /// it, and then renames that by `std::fs::rename`.
    ///
    /// # Errors
    ///
    /// `Io` where the file can't be made or opened for writing, or where a write fails; `NoProgress`
    /// where it takes no bytes. std's file tells no fault of its closing.
    pub fn write_to_file_opt<R: Files>(
        &self,
        rt: &R,
        path: Path<'_>,
        option: WriteOption,
    ) -> Result<(), Error>
        ensures bytes { OnOk result (IsWrittenToFile R.File.contents (written self.now option)) }
        ensures only { IfErr result IsIoOrNoProgress }
    {
        let mut file = fs::create(rt, path).map_err(Error::Io)?;
        self.write_to_opt(&mut file, option)
    }
}
