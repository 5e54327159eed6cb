use pon_units::{MAX_ALLOC_ID, MAX_PROFILE};
use std::marker::Model;

/// An allocation structure of a bandwidth map (ITU-T G.987.3): the grant of one Alloc-ID.
#[derive(Clone, Copy, Debug, PartialEq, Eq)]
pub struct Alloc {
    id: u16,
    dbru: bool,
    ploam: bool,
    start: Option<u16>,
    grant: u16,
    fwi: bool,
    profile: u8,
}

impl Model for Alloc {
    ghost use Rattle.std.specs.Prelude.{◌≤◌};
    ghost use Rattle.pon_units.specs.declared.limits.TheConstants.{MAX_ALLOC_ID, MAX_PROFILE};
    ghost use Rattle.pon_bwmap.specs.Alloc.{Alloc};

    ghost Value = { Alloc };

    ghost view = { λ a. record {
      id = a.id;
      dbru = a.dbru;
      ploam = a.ploam;
      start = a.start;
      grant = a.grant;
      fwi = a.fwi;
      profile = a.profile;
    } };

    ghost invariant = { λ a. (a.id ≤ MAX_ALLOC_ID) × (a.profile ≤ MAX_PROFILE) };

    ghost inverse = { λ v. record {
      id = v.id;
      dbru = v.dbru;
      ploam = v.ploam;
      start = v.start;
      grant = v.grant;
      fwi = v.fwi;
      profile = v.profile;
    } };
}

impl Alloc {
    ghost use Rattle.std.specs.Prelude.{◌≡◌, ◌≤◌, true, false};
    ghost use Rattle.std.specs.Option.{SomeIff};

    /// Makes a structure of these fields; `None` exactly when the Alloc-ID is above 16,383 or the profile above 3.
    pub fn new(
        id: u16,
        dbru: bool,
        ploam: bool,
        start: Option<u16>,
        grant: u16,
        fwi: bool,
        profile: u8,
    ) -> Option<Self>
        ensures { SomeIff result ((id ≤ MAX_ALLOC_ID) × (profile ≤ MAX_PROFILE)) record {
          id = id;
          dbru = dbru;
          ploam = ploam;
          start = start;
          grant = grant;
          fwi = fwi;
          profile = profile;
        } }
    {
        if id > MAX_ALLOC_ID || profile > MAX_PROFILE {
            return None;
        }
        Some(Alloc {
            id,
            dbru,
            ploam,
            start,
            grant,
            fwi,
            profile,
        })
    }

    /// Makes a structure that requests a report and no message.
    pub fn polled(id: u16, start: Option<u16>, grant: u16, profile: u8) -> Self
        requires id { id ≤ MAX_ALLOC_ID }
        requires profile { profile ≤ MAX_PROFILE }
        ensures { result ≡ record {
          id = id;
          dbru = true;
          ploam = false;
          start = start;
          grant = grant;
          fwi = false;
          profile = profile;
        } }
    {
        Alloc {
            id,
            dbru: true,
            ploam: false,
            start,
            grant,
            fwi: false,
            profile,
        }
    }

    /// Alloc-ID, 0 to 16,383.
    pub fn id(&self) -> u16
        ensures value { result ≡ self.now.id }
        ensures range { result ≤ MAX_ALLOC_ID }
    {
        self.id
    }

    /// Whether the structure requests a report of the occupancy (DBRu).
    pub fn dbru(&self) -> bool
        ensures { result ≡ self.now.dbru }
    {
        self.dbru
    }

    /// Whether the structure requests an upstream message (PLOAMu).
    pub fn ploam(&self) -> bool
        ensures { result ≡ self.now.ploam }
    {
        self.ploam
    }

    /// First word of the burst, in words of 4 bytes from the start of the frame; `None` if the structure continues the
    /// series before it.
    pub fn start(&self) -> Option<u16>
        ensures { result ≡ self.now.start }
    {
        self.start
    }

    /// Granted words of 4 bytes, including the word of a report, 0 to 65,535.
    pub fn grant(&self) -> u16
        ensures value { result ≡ self.now.grant }
        ensures range { result ≤ 65535 }
    {
        self.grant
    }

    /// Whether the structure indicates a forced wake-up (FWI).
    pub fn fwi(&self) -> bool
        ensures { result ≡ self.now.fwi }
    {
        self.fwi
    }

    /// Burst profile, 0 to 3.
    pub fn profile(&self) -> u8
        ensures value { result ≡ self.now.profile }
        ensures range { result ≤ MAX_PROFILE }
    {
        self.profile
    }
}
