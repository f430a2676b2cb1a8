// The fields of each register, in one table: their lowest bits, widths, rules and reset values.
ghost use Rattle.std.specs.Prelude.{◌≡◌, ℕ, ◌+◌, ◌*◌, ◌^◌, ◌<◌, ◌≤◌, [], ◌∷◌, IsTrue, sum_by};
ghost use Rattle.event_words.specs.declared.shape.Shape.{Shape};
ghost use Rattle.event_words.specs.Valid.{IsValidShape};
ghost use Rattle.event_words.specs.Registers.{has_register, field, fields_of, ruled, bits_of};
ghost use Rattle.event_words.specs.Guards.{field_bits, read_only_bits, whole};
ghost use Rattle.register_fields.specs.Tables.{IsTable, IsField, field_value};

use event_words::{Field, Register, Rule, Shape};

/// What is added up over the fields of a register.
#[derive(Clone, Copy)]
pub enum FieldValue {
    Ruled(u32, u32),
    Reset,
    Whole,
    ReadOnly,
}

#[inline(always)]
fn bits_of(low: u8, width: u8, word: u32) -> u32
    requires { low + width ≤ 32 }
    ensures value { result ≡ bits_of low width word }
    ensures small { result < 2 ^ width }
{
    ((word as u64 >> low) % (1 << width)) as u32
}

#[inline(always)]
fn ruled(rule: Rule, old: u32, new: u32) -> u32
    ensures value { result ≡ ruled rule old new }
    ensures small { (width : ℕ) → old < 2 ^ width → new < 2 ^ width → result < 2 ^ width }
{
    match rule {
        Rule::ReadOnly | Rule::Captured => old,
        Rule::ReadWrite => new,
        Rule::SetOnly => old | new,
        Rule::ClearOnly | Rule::WriteOneClear => old - (old & new),
        Rule::GrowOnly => old.max(new),
    }
}

/// What a field adds, before it is moved to its place.
#[inline(always)]
fn number_of(which: FieldValue, field: &Field) -> u64
    requires { IsField field.now }
    ensures value { result * 2 ^ field.now.low ≡ field_value which field.now }
    ensures small { result < 2 ^ field.now.width }
{
    let all = (1u64 << field.width) - 1;
    match which {
        FieldValue::Ruled(old, new) => {
            let old = bits_of(field.low, field.width, old);
            let new = bits_of(field.low, field.width, new);
            ruled(field.rule, old, new) as u64
        }
        FieldValue::Reset => field.reset as u64,
        FieldValue::Whole => all,
        FieldValue::ReadOnly => match field.rule {
            Rule::ReadOnly => all,
            _ => 0,
        },
    }
}

/// What a field adds.
#[inline(always)]
fn field_value(which: FieldValue, field: &Field) -> u32
    requires { IsField field.now }
    ensures value { result ≡ field_value which field.now }
    ensures bound { result ≤ field_bits field.now }
{
    (number_of(which, field) << field.low) as u32
}

/// The sum over a register's fields.
#[inline(always)]
fn sum_of(fields: &[Field], which: FieldValue) -> u32
    requires { IsTable fields.now }
    ensures { result ≡ sum_by (field_value which) fields.now }
{
    let mut sum = 0;
    for field in fields {
        sum += field_value(which, field);
    }
    sum
}

#[inline(always)]
const fn field(low: u8, width: u8, rule: Rule, reset: u32) -> Field
    ensures { result ≡ record { low = low; width = width; rule = rule; reset = reset } }
{
    Field {
        low,
        width,
        rule,
        reset,
    }
}

/// The sum over one field that begins at bit 0.
#[inline(always)]
fn from_zero(width: u8, rule: Rule, which: FieldValue) -> u32
    requires { width ≤ 32 }
    ensures { result ≡ sum_by (field_value which) (field 0 width rule 0 ∷ []) }
{
    sum_of(&[field(0, width, rule, 0)], which)
}

/// The sum over one field that begins at bit 1.
#[inline(always)]
fn from_one(width: u8, rule: Rule, which: FieldValue) -> u32
    requires { width ≤ 31 }
    ensures { result ≡ sum_by (field_value which) (field 1 width rule 0 ∷ []) }
{
    sum_of(&[field(1, width, rule, 0)], which)
}

/// The sum over a lock bit and the field above it.
#[inline(always)]
fn with_lock(width: u8, rule: Rule, which: FieldValue) -> u32
    requires { width ≤ 31 }
    ensures { result ≡ sum_by (field_value which)
        (field 0 1 Rule.SetOnly 0 ∷ field 1 width rule 0 ∷ []) }
{
    sum_of(
        &[field(0, 1, Rule::SetOnly, 0), field(1, width, rule, 0)],
        which,
    )
}

/// The sum over the fields of a register of this shape.
#[inline(always)]
pub fn sum_of_register(shape: &Shape, register: Register, which: FieldValue) -> u32
    requires shape { IsValidShape shape.now }
    requires there { IsTrue (has_register shape.now register) }
    ensures { result ≡ sum_by (field_value which) (fields_of shape.now register) }
{
    let low = shape.domains.min(31);
    let high = shape.domains.saturating_sub(31);
    match register {
        Register::Hwcfg0 => sum_of_hwcfg0(shape, which),
        Register::Hwcfg1 => sum_of_hwcfg1(shape, which),
        Register::Hwcfg2 => sum_of_hwcfg2(shape, which),
        Register::Mdlck => with_lock(low, Rule::SetOnly, which),
        Register::Mdlckh => from_zero(high, Rule::SetOnly, which),
        Register::Mdcfglck => with_lock(7, Rule::GrowOnly, which),
        Register::Entrylck => with_lock(16, Rule::GrowOnly, which),
        Register::ErrCfg => sum_of_err_cfg(which),
        Register::ErrInfo => sum_of_err_info(which),
        Register::ErrReqaddr => from_zero(32, Rule::Captured, which),
        Register::ErrReqaddrh => from_zero(18, Rule::Captured, which),
        Register::ErrReqid => sum_of_err_reqid(which),
        Register::Rridscp | Register::Mdcfg(_) => from_zero(16, Rule::ReadWrite, which),
        Register::SrcmdEn(_) => with_lock(low, Rule::ReadWrite, which),
        Register::Mdstall | Register::SrcmdR(_) | Register::SrcmdW(_) => {
            from_one(low, Rule::ReadWrite, which)
        }
        Register::Mdstallh | Register::SrcmdEnh(_) | Register::SrcmdRh(_) | Register::SrcmdWh(_) =>
            from_zero(high, Rule::ReadWrite, which),
        Register::SrcmdPerm(_) => from_zero(2 * shape.rrids.min(16), Rule::ReadWrite, which),
        Register::SrcmdPermh(_) => {
            from_zero(2 * shape.rrids.saturating_sub(16), Rule::ReadWrite, which)
        }
        Register::EntryAddr(_) => from_zero(32, Rule::ReadWrite, which),
        Register::EntryAddrh(_) => from_zero(18, Rule::ReadWrite, which),
        Register::EntryCfg(_) => sum_of_entry_cfg(which),
    }
}

#[inline(always)]
fn sum_of_hwcfg1(shape: &Shape, which: FieldValue) -> u32
    requires { IsValidShape shape.now }
    ensures { result ≡ sum_by (field_value which) (fields_of shape.now Register.Hwcfg1) }
{
    sum_of(
        &[
            field(0, 16, Rule::ReadOnly, shape.rrids as u32),
            field(16, 16, Rule::ReadOnly, shape.entries as u32),
        ],
        which,
    )
}

#[inline(always)]
fn sum_of_hwcfg2(shape: &Shape, which: FieldValue) -> u32
    requires { IsValidShape shape.now }
    ensures { result ≡ sum_by (field_value which) (fields_of shape.now Register.Hwcfg2) }
{
    sum_of(
        &[
            field(0, 16, Rule::ReadWrite, 0),
            field(16, 16, Rule::ReadOnly, shape.transl.unwrap_or(0) as u32),
        ],
        which,
    )
}

#[inline(always)]
fn sum_of_err_reqid(which: FieldValue) -> u32
    ensures { (h : Shape) → result ≡ sum_by (field_value which) (fields_of h Register.ErrReqid) }
{
    sum_of(
        &[
            field(0, 16, Rule::Captured, 0),
            field(16, 16, Rule::Captured, 0),
        ],
        which,
    )
}

#[inline(always)]
fn sum_of_hwcfg0(shape: &Shape, which: FieldValue) -> u32
    requires { IsValidShape shape.now }
    ensures { result ≡ sum_by (field_value which) (fields_of shape.now Register.Hwcfg0) }
{
    let entry_rule = if shape.mdcfg == 2 {
        Rule::ReadWrite
    } else {
        Rule::ReadOnly
    };
    sum_of(
        &[
            field(0, 1, Rule::SetOnly, 0),
            field(1, 6, Rule::ReadOnly, shape.domains as u32),
            field(7, 2, Rule::ReadOnly, shape.mdcfg as u32),
            field(9, 2, Rule::ReadOnly, shape.srcmd as u32),
            field(11, 1, Rule::ReadOnly, shape.sps as u32),
            field(12, 1, Rule::ReadOnly, shape.transl.is_some() as u32),
            field(13, 1, Rule::ClearOnly, 1),
            field(17, 7, entry_rule, shape.k.saturating_sub(1) as u32),
        ],
        which,
    )
}

#[inline(always)]
fn sum_of_err_cfg(which: FieldValue) -> u32
    ensures { (h : Shape) → result ≡ sum_by (field_value which) (fields_of h Register.ErrCfg) }
{
    sum_of(
        &[
            field(0, 1, Rule::SetOnly, 0),
            field(1, 1, Rule::ReadWrite, 0),
            field(2, 1, Rule::ReadWrite, 0),
            field(3, 1, Rule::ReadWrite, 0),
        ],
        which,
    )
}

#[inline(always)]
fn sum_of_err_info(which: FieldValue) -> u32
    ensures { (h : Shape) → result ≡ sum_by (field_value which) (fields_of h Register.ErrInfo) }
{
    sum_of(
        &[
            field(0, 1, Rule::WriteOneClear, 0),
            field(1, 2, Rule::Captured, 0),
            field(4, 4, Rule::Captured, 0),
        ],
        which,
    )
}

#[inline(always)]
fn sum_of_entry_cfg(which: FieldValue) -> u32
    ensures { (h : Shape) (n : ℕ) → result ≡ sum_by (field_value which)
        (fields_of h (Register.EntryCfg n)) }
{
    sum_of(
        &[
            field(0, 1, Rule::ReadWrite, 0),
            field(1, 1, Rule::ReadWrite, 0),
            field(2, 1, Rule::ReadWrite, 0),
            field(3, 2, Rule::ReadWrite, 0),
            field(5, 3, Rule::ReadWrite, 0),
            field(8, 3, Rule::ReadWrite, 0),
        ],
        which,
    )
}

/// Every bit of the fields of a register that the shape has.
pub fn whole(shape: &Shape, register: Register) -> u32
    requires shape { IsValidShape shape.now }
    requires there { IsTrue (has_register shape.now register) }
    ensures { result ≡ whole shape.now register }
{
    sum_of_register(shape, register, FieldValue::Whole)
}

/// The bits of the read-only fields of a register that the shape has.
pub fn read_only(shape: &Shape, register: Register) -> u32
    requires shape { IsValidShape shape.now }
    requires there { IsTrue (has_register shape.now register) }
    ensures { result ≡ sum_by read_only_bits (fields_of shape.now register) }
{
    sum_of_register(shape, register, FieldValue::ReadOnly)
}
