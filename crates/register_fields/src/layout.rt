// Where the registers of a shape are.
ghost use Rattle.std.specs.Prelude.{◌≡◌, ◌<◌, IsTrue, IfSome, OnSome};
ghost use Rattle.event_words.specs.Registers.{register_at, scalar_at, srcmd_at, entry_at, named_at, has_register, index_count};
ghost use Rattle.event_words.specs.Valid.{IsValidShape};
ghost use Rattle.register_fields.specs.Places.{IsRegisterAt};

use event_words::{Register, Shape};

/// The index of ERR_INFO.
pub const ERR_INFO: u32 = 25;

/// The index of ERR_REQADDR.
pub const ERR_REQADDR: u32 = 26;

/// The index of ERR_REQADDRH.
pub const ERR_REQADDRH: u32 = 27;

/// The index of ERR_REQID.
pub const ERR_REQID: u32 = 28;

#[inline(always)]
fn scalar_at(index: u32) -> Option<Register>
    ensures { result ≡ scalar_at index }
{
    match index {
        2 => Some(Register::Hwcfg0),
        3 => Some(Register::Hwcfg1),
        4 => Some(Register::Hwcfg2),
        12 => Some(Register::Mdstall),
        13 => Some(Register::Mdstallh),
        14 => Some(Register::Rridscp),
        16 => Some(Register::Mdlck),
        17 => Some(Register::Mdlckh),
        18 => Some(Register::Mdcfglck),
        19 => Some(Register::Entrylck),
        24 => Some(Register::ErrCfg),
        ERR_INFO => Some(Register::ErrInfo),
        ERR_REQADDR => Some(Register::ErrReqaddr),
        ERR_REQADDRH => Some(Register::ErrReqaddrh),
        ERR_REQID => Some(Register::ErrReqid),
        _ => None,
    }
}

#[inline(always)]
fn srcmd_at(shape: &Shape, row: u32, place: u32) -> Option<Register>
    ensures { result ≡ srcmd_at shape.now row place }
{
    match (shape.srcmd == 2, place) {
        (true, 0) => Some(Register::SrcmdPerm(row)),
        (true, 1) => Some(Register::SrcmdPermh(row)),
        (true, _) => None,
        (false, 0) => Some(Register::SrcmdEn(row)),
        (false, 1) => Some(Register::SrcmdEnh(row)),
        (false, 2) => Some(Register::SrcmdR(row)),
        (false, 3) => Some(Register::SrcmdRh(row)),
        (false, 4) => Some(Register::SrcmdW(row)),
        (false, 5) => Some(Register::SrcmdWh(row)),
        (false, _) => None,
    }
}

#[inline(always)]
fn entry_at(row: u32, place: u32) -> Option<Register>
    ensures { result ≡ entry_at row place }
{
    match place {
        0 => Some(Register::EntryAddr(row)),
        1 => Some(Register::EntryAddrh(row)),
        2 => Some(Register::EntryCfg(row)),
        _ => None,
    }
}

#[inline(always)]
fn named_at(shape: &Shape, index: u32) -> Option<Register>
    ensures { result ≡ named_at shape.now index }
{
    if index < 512 {
        scalar_at(index)
    } else if index < 1024 {
        Some(Register::Mdcfg(index - 512))
    } else if index < 2048 {
        srcmd_at(shape, (index - 1024) / 8, (index - 1024) % 8)
    } else {
        entry_at((index - 2048) / 4, (index - 2048) % 4)
    }
}

#[inline(always)]
fn has_register(shape: &Shape, register: Register) -> bool
    ensures { result ≡ has_register shape.now register }
{
    match register {
        Register::Mdcfg(domain) => shape.mdcfg == 0 && domain < shape.domains as u32,
        Register::SrcmdEn(rrid) | Register::SrcmdEnh(rrid) => {
            shape.srcmd == 0 && rrid < shape.rrids as u32
        }
        Register::SrcmdR(rrid)
        | Register::SrcmdRh(rrid)
        | Register::SrcmdW(rrid)
        | Register::SrcmdWh(rrid) => shape.srcmd == 0 && shape.sps && rrid < shape.rrids as u32,
        Register::SrcmdPerm(domain) | Register::SrcmdPermh(domain) => {
            shape.srcmd == 2 && domain < shape.domains as u32
        }
        Register::EntryAddr(entry) | Register::EntryAddrh(entry) | Register::EntryCfg(entry) => {
            entry < shape.entries as u32
        }
        _ => true,
    }
}

/// The register at an index (a byte offset divided by 4) of a unit of this shape. `None` where the
/// offset is no register, or one of a domain, requester or entry that the shape doesn't have.
#[inline(always)]
pub fn register_at(shape: &Shape, index: u32) -> Option<Register>
    ensures value { result ≡ register_at shape.now index }
    ensures inside { OnSome result (index < index_count shape.now) }
    ensures there { IfSome result (λ register. IsTrue (has_register shape.now register)) }
    ensures exact { IsValidShape shape.now → IsRegisterAt shape.now index result }
{
    let register = named_at(shape, index)?;
    if has_register(shape, register) {
        Some(register)
    } else {
        None
    }
}
