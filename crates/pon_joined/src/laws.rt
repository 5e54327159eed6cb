//! The law of joined recordings, over the definitions alone.

ghost use Rattle.std.specs.Prelude.{◌≡◌, ◌++◌, List, map};
ghost use Rattle.std.specs.List.{flat_map};
ghost use Rattle.pon_record.specs.Chapters.{Body};
ghost use Rattle.pon_record.specs.Recordings.{recording_bytes};
ghost use Rattle.pon_record.specs.declared.version.Version.{Version};
ghost use Rattle.pon_joined.specs.Joined.{joined_bytes};

/// Joined recordings of one version are the recording that has the magic bytes once and then all their chapters, so they have
/// its verdict.
pub fn joined_recordings_are_one()
    ensures { (v : Version) (first : List Body) (further : List (List Body))
        → joined_bytes (recording_bytes v first) (map (recording_bytes v) further)
        ≡ recording_bytes v (first ++ flat_map (λ bodies. bodies) further) }
{}
