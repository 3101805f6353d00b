//! The pages of help and the version, once for both programs.

/// The version of the program.
pub const VERSION: &str = "0.1.0";

/// What `--version` prints.
pub const VERSION_PAGE: &str = "\
pciids 0.1.0
";

/// What follows `Usage: ` in the help of the program and after an unknown command.
pub const USAGE: &str = "\
pciids < FILE
       pciids <COMMAND> [ARGS]";

/// What follows the message about an unknown command.
pub const USAGE_PAGE: &str = "\
Usage: pciids < FILE
       pciids <COMMAND> [ARGS]

For more information, try '--help'.
";

/// The help of the program.
pub const HELP: &str = "\
Checks and prints pci.ids files, and keeps a moderated registry of PCI IDs

Usage: pciids < FILE
       pciids <COMMAND> [ARGS]

Commands:
  tidy     Prints the canonical form of a pci.ids file (the default)
  check    Counts the entries of a pci.ids file or reports the first fault
  lookup   Looks up a name in a pci.ids file, as libpci does
  script   Runs the commands and queries on standard input, one per line
  import   Imports a pci.ids file into a registry
  export   Prints a registry as a pci.ids file
  serve    Serves a registry over HTTP
  migrate  Upgrades a registry to the newest schema
  help     Print this message or the help of the given subcommand(s)

Options:
  -h, --help     Print help
  -V, --version  Print version

A registry is a single SQLite file. It is created if it does not exist.

Exit status:
  0  success
  1  a file or a command was refused, or a lookup has no answer
  2  invalid arguments
  3  out of memory, or a file, the port or the registry failed

Run 'pciids help <COMMAND>' for details and an example.
";

/// The commands in the order of the help, which is one of them.
pub const COMMANDS: [&str; 9] = [
    "tidy", "check", "lookup", "script", "import", "export", "serve", "migrate", "help",
];

// The help of each command but `help`.
const PAGES: [(&str, &str); 8] = [
    ("tidy", TIDY),
    ("check", CHECK),
    ("lookup", LOOKUP),
    ("script", SCRIPT),
    ("import", IMPORT),
    ("export", EXPORT),
    ("serve", SERVE),
    ("migrate", MIGRATE),
];

/// The help of a command; none of `help`, or of a word that is no command.
pub fn page_of(command: &str) -> Option<&'static str> {
    for (name, page) in &PAGES {
        if *name == command {
            return Some(*page);
        }
    }
    None
}

pub const TIDY: &str = "\
Prints the canonical form of a pci.ids file (the default)

Usage: pciids tidy < FILE

Options:
  -h, --help  Print help

Example: pciids tidy < pci.ids > canonical.ids

If the file has a fault, nothing is printed on standard output, the first fault
is reported on standard error, and the exit status is 1. The faults are listed
by 'pciids help check'.
";

pub const CHECK: &str = "\
Counts the entries of a pci.ids file or reports the first fault

Usage: pciids check < FILE

Options:
  -h, --help  Print help

Example: pciids check < pci.ids

Prints 'ok N', where N is the number of entries, or 'line L: NUMBER Word' for
the first line with a fault:
  1 NotUtf8        the line is not valid UTF-8
  2 TooDeep        more than two leading tabs, or more than one below an S line
  3 NoParent       leading tabs, but no line above that the line belongs to
  4 BadId          no valid hex digits, or no space or tab after them
  5 NoName         no name after the hex digits
  6 BadName        a name over 1,000 bytes, or a control character except tab
  7 Duplicate      an earlier entry has the same path
  8 VendorMissing  an S line for a vendor that no earlier entry names

Prints 'too many entries' if there are more than 100,000 entries, and
'too large' if the file is larger than 4,194,304 bytes.
";

pub const LOOKUP: &str = "\
Looks up a name in a pci.ids file, as libpci does

Usage: pciids lookup [OPTIONS] --ids <FILE> --flags <HEX>

Options:
      --ids <FILE>       pci.ids file to read
      --flags <HEX>      What to look up, 1 to 8 hex digits
      --size <N>         Buffer size in bytes [default: 1024]
      --vendor <HEX>     Vendor, 4 hex digits
      --device <HEX>     Device, 4 hex digits
      --subvendor <HEX>  Vendor of the subsystem, 4 hex digits
      --subdevice <HEX>  Subsystem, 4 hex digits
      --class <HEX>      Class and subclass, 4 hex digits
      --progif <HEX>     Programming interface, 2 hex digits
  -h, --help             Print help

Example: pciids lookup --ids pci.ids --flags 3 --vendor 8086 --device 1237

The flags are those of pci_lookup_name in libpci. What to look up:
  1  the vendor                   9   the vendor of the subsystem
  2  the device                   a   the subsystem
  3  the vendor and the device    b   the subsystem and its vendor
  4  the class                    10  the programming interface
Add one of these to change what is shown:
  10000  numbers only
  20000  names only
  40000  names, with the numbers in brackets
Numbers that are not given are 0.

Prints 'text ANSWER' with exit status 0, or 'none' or 'refused N Word' with
exit status 1.
";

pub const SCRIPT: &str = "\
Runs the commands and queries on standard input, one per line

Usage: pciids script [OPTIONS]

Options:
      --db <FILE>         Registry file, created if it does not exist
      --journal <FOLDER>  Journal of the commands, created if it does not exist
  -h, --help              Print help

Example: pciids script --db registry.db < commands

Without --db, the registry is kept in memory and lost when the program ends.
With --journal, each command is on the disk of the journal before it is obeyed,
and a registry that lacks commands of the journal obeys them first.

Each line is a command or a query, and gets a reply. Empty lines and lines that
start with '#' get none. WHO is the account that sends the command:
  account WHO who=NAME&rank=N
  submit WHO path=PATH&name=NAME
  submit WHO path=PATH&remove=yes
  comment WHO num=N&text=TEXT
  withdraw WHO num=N
  approve WHO num=N
  confirm WHO num=N&was=NAME
  reject WHO num=N&reason=TEXT
  import WHO file=TEXT
  read path=PATH
  lookup flags=HEX&vendor=HEX&device=HEX
  export

Fields are encoded as in an HTML form: a space is '+', and '%XX' is any byte.
A new registry has one account, 'root', which is an administrator (rank 3).
The exit status is 0 if all lines were answered, even if some were refused.
";

pub const IMPORT: &str = "\
Imports a pci.ids file into a registry

Usage: pciids import [OPTIONS] --db <FILE> --account <ACCOUNT> <IDS>

Arguments:
  <IDS>  pci.ids file to import

Options:
      --db <FILE>          Registry file, created if it does not exist
      --journal <FOLDER>   Journal of the commands, created if it does not exist
      --account <ACCOUNT>  Account that imports, of rank 2 or 3
      --key <KEY>          Key under which the import is done only once
  -h, --help               Print help

Example: pciids import --db registry.db --account root /usr/share/misc/pci.ids

Prints 'ok added=A renamed=R same=S', or 'refused N Word'. If the file has a
fault, nothing is imported.
";

pub const EXPORT: &str = "\
Prints a registry as a pci.ids file

Usage: pciids export --db <FILE>

Options:
      --db <FILE>  Registry file, created if it does not exist
  -h, --help       Print help

Example: pciids export --db registry.db > pci.ids

The output is in canonical form, as 'pciids tidy' prints it.
";

pub const SERVE: &str = "\
Serves a registry over HTTP

Usage: pciids serve [OPTIONS] --db <FILE> --port <N>

Options:
      --db <FILE>         Registry file, created if it does not exist
      --journal <FOLDER>  Journal of the commands, created if it does not exist
      --port <N>          TCP port on 127.0.0.1, 1 to 65535
      --connections <N>   Connections to serve, 1 to 1000000 [default: 1000000]
  -h, --help              Print help

Example: pciids serve --db registry.db --port 8086

Prints 'listening on 127.0.0.1:PORT' when it is ready. Serves one connection at
a time, and prints 'served N' after the last one.

The server does not authenticate clients: it believes the X-Account field of a
request. Put a proxy in front of it that checks passwords and sets the field.
";

pub const MIGRATE: &str = "\
Upgrades a registry to the newest schema

Usage: pciids migrate --db <FILE>

Options:
      --db <FILE>  Registry file, created if it does not exist
  -h, --help       Print help

Example: pciids migrate --db registry.db

Prints 'created schema 2', 'moved to schema 2' or 'schema 2 already'. Every
command that opens a registry upgrades it first. Older versions of pciids
cannot open an upgraded registry.
";
