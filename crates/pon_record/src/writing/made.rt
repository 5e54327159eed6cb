//! Appends a made map to bytes.

ghost use Rattle.std.specs.Prelude.{◌≡◌, ◌++◌, OnOk};
ghost use Rattle.pon_cert.specs.Texts.{FitsCert};
ghost use Rattle.pon_record.specs.MadeMaps.{certificate, made_map, map};

use crate::writing::fields::put_frame;
use pon_bwmap::{Map, write_map};
use pon_cert::MapCert;
use pon_state::MadeMap;
use pon_units::MAX_STRUCTURES;
use std::alloc::AllocError;

/// Number of bytes of the longest map, one of 512 structures.
const MAX_MAP_BYTES: usize = 4100;

fn put_map(bytes: &mut Vec<u8>, value: &Map) -> Result<(), AllocError>
    ensures { OnOk result (bytes.new.items ≡ bytes.old.items ++ map.write value.now) }
{
    let rows = value.rows();
    prove!(rows.len() <= MAX_STRUCTURES);
    let mut room = [0; MAX_MAP_BYTES];
    let size = write_map(value, &mut room);
    bytes.extend_from_slice(&room[..size])?;
    Ok(())
}

fn put_cert(bytes: &mut Vec<u8>, value: &MapCert) -> Result<(), AllocError>
    requires { FitsCert value.now }
    ensures { OnOk result (bytes.new.items ≡ bytes.old.items ++ certificate.write value.now) }
{
    let cert = value.to_bytes(*bytes.allocator())?;
    bytes.extend_from_slice(&cert)
}

/// Appends the frame of the map, the map and its certificate.
pub(crate) fn put_made(bytes: &mut Vec<u8>, value: &MadeMap) -> Result<(), AllocError>
    requires { FitsCert value.now.cert }
    ensures { OnOk result (bytes.new.items ≡ bytes.old.items ++ made_map.write value.now) }
{
    put_frame(bytes, value.frame)?;
    put_map(bytes, &value.map)?;
    put_cert(bytes, &value.cert)?;
    Ok(())
}
