//! The names that a request is about.
ghost use Rattle.std.specs.Prelude.{◌≡◌, ◌&&◌, ◌==◌, not, IfOk, IsSome};
ghost use Rattle.pid_file.specs.declared.path.Path.TheVariants as paths;
ghost use Rattle.pid_lookup.specs.Found.{own_device, subsystem_name, under_device};
ghost use Rattle.pid_lookup.specs.Flags.{has_bits};
ghost use Rattle.pid_lookup.specs.Steps.Asking.{AsksHolder, AsksHolderFor, AsksNamesFor};
ghost use Rattle.pid_lookup.specs.Steps.FoundTexts.{IsFoundFor, found_one, nameless};

use crate::args::{Args, class_byte, subclass_byte};
use crate::flags::Request;
use crate::ide::IdeWords;
use crate::names::Names;
use pid_ident::{Name, Path};

/// What there is for a request.
#[derive(Drop)]
pub enum Found {
    One(Option<Name>),
    /// The interface of an IDE controller that has no name.
    Ide(IdeWords),
    /// The name of a class in place of that of its subclass.
    ClassOnly(Name),
    /// The names of a vendor and of a device.
    Pair(Option<Name>, Option<Name>),
}

// One name, if there was no fault.
fn one<F>(name: Result<Option<Name>, F>) -> Result<Found, F>
    ensures { result ≡ found_one name }
{
    match name {
        Ok(name) => Ok(Found::One(name)),
        Err(fault) => Err(fault),
    }
}

/// The names that a request is about.
pub fn find<N: Names>(names: &mut N, request: Request, args: &Args) -> Result<Found, N::Fault>
    ensures { AsksHolder N.Names names.old names.new result
        (λ named found. IsFoundFor found named request args.now) }
{
    match request {
        Request::Vendor => {
            let vendor = args.vendor;
            one(names.name_of(&Path::Vendor { vendor }))
        }
        Request::Device => one(find_device(names, args)),
        Request::Subvendor => {
            let vendor = args.subvendor;
            one(names.name_of(&Path::Vendor { vendor }))
        }
        Request::Subsystem => one(find_subsystem(names, args)),
        Request::Class => find_class(names, args),
        Request::ProgIf => find_progif(names, args),
        Request::VendorAndDevice => find_device_pair(names, args),
        Request::SubvendorAndSubsystem => find_subsystem_pair(names, args),
    }
}

fn find_device<N: Names>(names: &mut N, args: &Args) -> Result<Option<Name>, N::Fault>
    ensures { AsksHolderFor N.Names names.old names.new result
        (λ named. named (paths.Device args.now.vendor args.now.device)) }
{
    names.name_of(&Path::Device {
        vendor: args.vendor,
        device: args.device,
    })
}

fn find_device_pair<N: Names>(names: &mut N, args: &Args) -> Result<Found, N::Fault>
    ensures { AsksHolder N.Names names.old names.new result
        (λ named found. IsFoundFor found named Request.VendorAndDevice args.now) }
{
    let vendor = args.vendor;
    let vendor = names.name_of(&Path::Vendor { vendor })?;
    let device = find_device(names, args)?;
    Ok(Found::Pair(vendor, device))
}

fn find_subsystem_pair<N: Names>(names: &mut N, args: &Args) -> Result<Found, N::Fault>
    ensures { AsksHolder N.Names names.old names.new result
        (λ named found. IsFoundFor found named Request.SubvendorAndSubsystem args.now) }
{
    let vendor = args.subvendor;
    let vendor = names.name_of(&Path::Vendor { vendor })?;
    let device = find_subsystem(names, args)?;
    Ok(Found::Pair(vendor, device))
}

fn find_subsystem<N: Names>(names: &mut N, args: &Args) -> Result<Option<Name>, N::Fault>
    ensures { AsksHolderFor N.Names names.old names.new result
        (λ named. subsystem_name named args.now) }
{
    if let Some(name) = find_under_device(names, args)? {
        return Ok(Some(name));
    }
    let generic = Path::Generic {
        vendor: args.subvendor,
        device: args.subdevice,
    };
    if let Some(name) = names.name_of(&generic)? {
        return Ok(Some(name));
    }
    if args.subvendor == args.vendor && args.subdevice == args.device {
        return find_device(names, args);
    }
    Ok(None)
}

// The subsystem's entry under the device.
fn find_under_device<N: Names>(names: &mut N, args: &Args) -> Result<Option<Name>, N::Fault>
    ensures asks { AsksNamesFor N.Names names.old names.new result
        (λ named. under_device named args.now) }
    ensures allowed { IfOk result (λ name. IsSome name → N.may_tell names.old) }
{
    if args.vendor == 0 || args.device == 0 {
        return Ok(None);
    }
    names.name_of(&Path::Subsystem {
        vendor: args.vendor,
        device: args.device,
        subvendor: args.subvendor,
        subdevice: args.subdevice,
    })
}

fn find_class<N: Names>(names: &mut N, args: &Args) -> Result<Found, N::Fault>
    ensures { AsksHolder N.Names names.old names.new result
        (λ named found. IsFoundFor found named Request.Class args.now) }
{
    let class = class_byte(args);
    let subclass = subclass_byte(args);
    if let Some(name) = names.name_of(&Path::Subclass { class, subclass })? {
        return Ok(Found::One(Some(name)));
    }
    match names.name_of(&Path::Class { class })? {
        Some(name) => Ok(Found::ClassOnly(name)),
        None => Ok(Found::One(None)),
    }
}

fn find_progif<N: Names>(names: &mut N, args: &Args) -> Result<Found, N::Fault>
    ensures { AsksHolder N.Names names.old names.new result
        (λ named found. IsFoundFor found named Request.ProgIf args.now) }
{
    let path = Path::ProgIf {
        class: class_byte(args),
        subclass: subclass_byte(args),
        progif: args.progif,
    };
    match names.name_of(&path)? {
        Some(name) => Ok(Found::One(Some(name))),
        None => Ok(nameless_progif(args)),
    }
}

// An interface that has no name.
fn nameless_progif(args: &Args) -> Found
    ensures { result ≡ nameless (args.now.class == 0x101 && not
        (has_bits args.now.progif 0x70)) args.now.progif }
{
    if args.class == 0x101 && args.progif & 0x70 == 0 {
        Found::Ide(IdeWords::of(args.progif))
    } else {
        Found::One(None)
    }
}
