// The files of a season. Which bytes one has is for the operating system to say; what they make of the sums is proved.
ghost use Rattle.std.specs.Prelude.{◌≡◌};
ghost use Rattle.sums.specs.Season.{sums_after};

use crate::notices;
use std::env::Env;
use std::fs::File;
use std::io::{Read, Write};
use std::rt::Files;
use std::str;
use sums::Sums;

// A season as it is added up: where its files are asked for, where it tells of them, and the sums so far.
#[derive(Drop)]
pub(crate) struct Season<'a, R, W> {
    pub(crate) rt: &'a R,
    pub(crate) errors: &'a mut W,
    pub(crate) sums: Sums,
}

impl<R: Env + Files + Alloc, W: Write> Season<'_, R, W> {
    // The files of the arguments from 3 on, one after the other.
    pub(crate) fn add_files(&mut self, count: usize) {
        for i in 3..count {
            self.add_file(i);
            let _ = notices::progress(self.errors, i - 2, count - 3);
        }
    }

    // The file that argument i names, added to the sums; where it can't be read the sums stay.
    fn add_file(&mut self, i: usize) {
        let mut name = [0u8; 4096];
        match self.rt.arg(i, &mut name) {
            Ok(length) => self.add_named(&name[..length]),
            Err(_) => {
                let _ = notices::no_name(self.errors);
            }
        }
    }

    // The file of this name. A path is UTF-8 text here.
    fn add_named(&mut self, name: &[u8]) {
        let Ok(path) = str::from_utf8(name) else {
            let _ = notices::no_text(self.errors, name);
            return;
        };
        match File::open(self.rt, path) {
            Ok(mut file) => self.add_open(&mut file, name),
            Err(e) => {
                let _ = notices::not_read(self.errors, self.rt.alloc(), name, e);
            }
        }
    }

    // An open file, read up to a byte more than the longest listing has.
    fn add_open(&mut self, file: &mut impl Read, name: &[u8]) {
        let mut text = [0u8; 65537];
        let got = console::read_full(file, &mut text);
        let mut more = [0u8; 1];
        if let Err(e) = file.read(&mut more) {
            let _ = notices::not_read(self.errors, self.rt.alloc(), name, e);
            return;
        }
        self.add_text(name, &text[..got])
    }

    // A listing's bytes added; where they are refused, that is told and the sums stay.
    #[tactic(auto, unfolding(sums::specs::Season::sums_after))]
    fn add_text(&mut self, name: &[u8], text: &[u8])
        ensures { self.new.sums ≡ sums_after self.old.sums text.now }
    {
        match sums::add_listing(self.sums, text) {
            Ok(after) => self.sums = after,
            Err(why) => {
                let _ = notices::file_refused(self.errors, name, why, text);
            }
        }
    }
}
