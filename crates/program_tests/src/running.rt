//! Runs of the program on a machine of the tests' own. A row is the words, ` < ` and standard input; and, after ` -> `, the status, what
//! was asked for (`opened` of the machine), `; `, standard output, `; ` and standard error; and `; ` and what the file `log` has without
//! the zeros at its end, if anything. `/` ends a line, and `|` is SOH. The file `house` is the sample, `bad` has an eighteenth row that is
//! none, `day` opens a day, the second line of `two` is bad, three lines of `amiss` do nothing, and after `traded` E1 may give up ten lots.
//! `keys` and `alike` are files of secrets. Nothing can be written to these, nor to `stuck`, which is empty; `worn` takes an opening and
//! nothing else. `.` is a folder. Among the journals, `alien` is of another reference, `edited` has another digest, `decayed` a bad line,
//! `padded` too much after its text, and another program has `held`. The digests are what sha256sum prints: of the sample, of 32 zeros and
//! `1 OK` with its LF, and of that digest and `2 OK OPEN`.

use crate::disk::{Disk, Kind};
use crate::machine::{LogEnd, Machine, Setting};
use crate::rows::check_told;
use gu_program::{SAMPLE_ROWS, Screen, status_of};
use gu_words::Status;
use std::alloc::{AllocError, Global};
use std::io::{Read, Write};
use std::net::{Net, Shutdown, TcpListener, TcpStream};
use std::process::Abort;
use std::sync::{Mutex, Wait};
use std::thread::Threads;
use std::time::Duration;
use std::{io, thread};
use trials::{columns, shown, wire};

/// A script three of whose lines do nothing: one names an unknown key, one has too many lots, and one an unknown group.
const AMISS: &[u8] = b"DAY 20260105
LIMIT G1 EXEC E9 5
# a line that says nothing
LIMIT G1 ACCT A1 2000000000
SWEEP G9
LIMIT G1 ACCT A1 10
";

/// A day on which E1 has bought ten lots of E2, and may give them up to A1.
const TRADED: &[u8] = b"DAY 20260105
LIMIT G1 EXEC E1 100
LIMIT G1 AGR P1 100
LIMIT G1 ACCT A1 100
LIMIT G1 CARRY C1 100
REPORT E1 R1 M1 B XF6 10 101.5 H1
REPORT E2 S1 M1 S XF6 10 101.5 H2
";

/// Secrets: that of the sample's E1 is 32 digits, 07 sixteen times. The machine's random bytes are all 7, and the digest is that of
/// Python's hashlib: `sha256(bytes([7] * 16) + b'07' * 16)`.
const KEYS: &[u8] =
    b"E1,07070707070707070707070707070707,40e450030d0b857819fc046187cddb246c4842f9a8c23810b93201ebc4e28520\n";

/// The same, and the row of a firm that isn't in the sample.
const ALIKE: &[u8] =
    b"E1,07070707070707070707070707070707,40e450030d0b857819fc046187cddb246c4842f9a8c23810b93201ebc4e28520\nE9,07070707070707070707070707070707,40e450030d0b857819fc046187cddb246c4842f9a8c23810b93201ebc4e28520\n";

/// Each task, and each fault of one.
const RUNS: &str = "\
giveup < 8=FIXT.1.1|9=117|35=AE|49=E1|56=GIVEUP|34=1|52=20260105-09:00:00|571=R1|880=M1|55=XF6|32=0010.0|31=101.50|75=20260105|552=1|54=1|1=H1|10=222|8=FIXT.1.1|9=112|35=AE|49=E2|56=GIVEUP|34=1|52=20260105-09:00:00|571=R2|880=M1|55=XF6|32=10|31=101.5|75=20260105|552=1|54=2|1=H2|10=239| -> 0 ; 8=FIXT.1.1|9=72|35=AR|49=GIVEUP|56=E1|34=1|52=20260105-00:00:00.000|571=R1|880=M1|939=0|10=121|8=FIXT.1.1|9=72|35=AR|49=GIVEUP|56=E2|34=2|52=20260105-00:00:00.000|571=R2|880=M1|939=0|10=124|POSITION H1 XF6 10 0/POSITION H2 XF6 0 10/;
giveup check < SHEET G1 0/END/ -> 0 ; OK 0/;
giveup check < SHEET G1 6/OFFER 1 7 P1 E1 A1 C1/ROOM EXEC E1 100/ROOM AGR P1 100/ROOM ACCT A1 100/ROOM CARRY C1 100/TAKE 1 8/CUT OFFER 1/END/ -> 1 ; FAULT 1 OverOffer 1/;
giveup check < SHEET G1 0/ -> 1 ; ; giveup: bad line 2/
giveup replay house < DAY 20260105/ -> 0 house ; 1 OK/;
giveup replay house < DAY 20260105/DAY/ -> 1 house ; 1 OK/; giveup: bad line 2/
giveup replay gone < DAY 20260105/ -> 1 gone ; ; giveup: reference: ReadFault/
giveup replay bad < DAY 20260105/ -> 1 bad ; ; giveup: reference: BadRow 18/
giveup fix E1 house < 8=FIXT.1.1|9=66|35=A|49=E1|56=GIVEUP|34=1|52=20260105-09:00:00|98=0|108=30|1137=9|10=004| -> 0 house ; 8=FIXT.1.1|9=70|35=A|49=GIVEUP|56=E1|34=1|52=20260105-09:00:00.000|98=0|108=30|1137=9|10=189|;
giveup fix E1 house < 8=FIXT.1.1|9=66|35=A|49=E2|56=GIVEUP|34=1|52=20260105-09:00:00|98=0|108=30|1137=9|10=005| -> 0 house ; ;
giveup fix E1 house --script day < 8=FIXT.1.1|9=66|35=A|49=E1|56=GIVEUP|34=1|52=20260105-09:00:00|98=0|108=30|1137=9|10=004|8=FIXT.1.1|9=112|35=AE|49=E1|56=GIVEUP|34=2|52=20260105-09:00:00|571=R1|880=M1|55=XF6|32=10|31=101.5|75=20260105|552=1|54=1|1=H1|10=236| -> 0 house day ; 8=FIXT.1.1|9=70|35=A|49=GIVEUP|56=E1|34=1|52=20260105-09:00:00.000|98=0|108=30|1137=9|10=189|8=FIXT.1.1|9=72|35=AR|49=GIVEUP|56=E1|34=2|52=20260105-09:00:00.000|571=R1|880=M1|939=0|10=131|;
giveup fix E1 house --script gone < x -> 1 house gone ; ; giveup: read fault/
giveup fix E1 house --script two < x -> 1 house two ; ; giveup: bad line 2/
giveup fix E1 lost --script gone < x -> 1 lost ; ; giveup: reference: ReadFault/
giveup fix e1 lost < x -> 2 ; ; error: invalid value for '<FIRM>': a firm is 1 to 12 of A-Z, 0-9 and -//Usage: giveup fix [OPTIONS] <FIRM> <REF>//For more information, try '--help'./
giveup check --help < x -> 0 ; Checks the sweep sheet on standard input: prints OK and its lots, or its first fault//Usage: giveup check//Options:/  -h, --help  Print help//Example: giveup check < three-agreements.sheet/;
giveup claim < x -> 2 ; ; error: unrecognized subcommand 'claim'//Usage: giveup [COMMAND]//For more information, try '--help'./
giveup --version < x -> 0 ; giveup 0.1.0 for rattle-kit-13f (logic dac8208d650f15bf)/;
giveup serve house 9878 < x -> 1 house 127.0.0.1:9878 ; ; giveup: read fault/
giveup serve house 41 --script day < x -> 1 house day 127.0.0.1:41 ; ; giveup: read fault/
giveup serve house 9878 --script two < x -> 1 house two ; ; giveup: bad line 2/
giveup serve lost 9878 --script two < x -> 1 lost ; ; giveup: reference: ReadFault/
giveup serve house 9878 --script amiss < x -> 1 house amiss 127.0.0.1:9878 ; ; giveup: line 2: 16 UnknownKey/giveup: line 4: 17 TooHigh/giveup: line 5: UNKNOWN GROUP/giveup: refused lines: 3/giveup: read fault/
giveup serve house 9878 --journal day < x -> 1 house ; ; giveup: journal: NotEmpty/giveup: day: it isn't empty, and a day doesn't write over what it finds/
giveup serve house 9878 --journal . < x -> 1 house ; ; giveup: journal: NotAFile/giveup: .: it isn't a file/
giveup serve house 9878 --journal gone < x -> 1 house +gone ; ; giveup: write fault/
giveup serve house 9878 --script two --journal log < x -> 1 house two ; ; giveup: bad line 2/
giveup serve house 9878 --journal log --resume < x -> 1 house +log +log.new !log.new 127.0.0.1:9878 -log.new ; ; giveup: read fault/
giveup serve house 9878 --journal stuck < x -> 1 house +stuck +stuck.new ; ; giveup: write fault/
giveup serve house 9878 --journal held --resume < x -> 1 house +held ; ; giveup: journal: InUse/giveup: held: another desk has it/
giveup serve house 9878 --journal alien --resume < x -> 1 house +alien ; ; giveup: journal: Reference/giveup: alien: it is the journal of a day of another reference/
giveup serve house 9878 --journal edited --resume < x -> 1 house +edited ; ; giveup: journal: Differs 1/giveup: edited: its lines don't lead to the answers that it has a digest of/
giveup serve house 9878 --journal decayed --resume < x -> 1 house +decayed ; ; giveup: journal: bad line 4/giveup: decayed: the line isn't one that may be there/
giveup serve house 9878 --journal padded --resume < x -> 1 house +padded ; ; giveup: journal: Damaged/giveup: padded: more is after its text than a torn batch, and it is left as it is/
giveup serve house 9878 --secrets keys < x -> 1 house keys 127.0.0.1:9878 ; ; giveup: read fault/
giveup serve house 9878 --secrets gone < x -> 1 house gone ; ; giveup: secrets: ReadFault/giveup: gone: entity not found/
giveup serve house 9878 --secrets alike < x -> 1 house alike ; ; giveup: secrets: BadRow 2/giveup: alike: line 2 isn't a row of a firm of the reference/
giveup serve lost 9878 --secrets gone < x -> 1 lost ; ; giveup: reference: ReadFault/
giveup serve house 9878 --secrets keys --script two < x -> 1 house keys two ; ; giveup: bad line 2/
giveup serve house 9878 --secrets day --script two --journal log < x -> 1 house day ; ; giveup: secrets: BadRow 1/giveup: day: line 1 isn't a row of a firm of the reference/
giveup serve house 9878 --secrets day --journal held --resume < x -> 1 house day ; ; giveup: secrets: BadRow 1/giveup: day: line 1 isn't a row of a firm of the reference/
giveup serve house - --doors hall < x -> 1 house ; ; giveup: doors: NotMade/giveup: hall/E1: unsupported/
giveup serve house - < x -> 2 ; ; error: the following required arguments were not provided:/  --doors <FOLDER>//Usage: giveup serve [OPTIONS] <REF> <PORT>//For more information, try '--help'./
giveup secret E1 < x -> 0 ; E1,07070707070707070707070707070707,40e450030d0b857819fc046187cddb246c4842f9a8c23810b93201ebc4e28520/; 554=07070707070707070707070707070707/
giveup serve house 9878 --journal etcd://10.0.0.1:2379/DAY < x -> 2 ; ; error: invalid value for '--journal <FILE>': a log is etcd://HOST:PORT[,HOST:PORT..]/NAME, with hosts of this machine//Usage: giveup serve [OPTIONS] <REF> <PORT>//For more information, try '--help'./
giveup serve house 9878 --journal log --standby < x -> 2 ; ; error: invalid value for '--journal <FILE>': a log is etcd://HOST:PORT[,HOST:PORT..]/NAME, with hosts of this machine//Usage: giveup serve [OPTIONS] <REF> <PORT>//For more information, try '--help'./
giveup secret e1 < x -> 2 ; ; error: invalid value for '<FIRM>': a firm is 1 to 12 of A-Z, 0-9 and -//Usage: giveup secret <FIRM>//For more information, try '--help'./
giveup serve house 0 < x -> 2 ; ; error: invalid value '0' for '<PORT>': 0 is not in 1..=65535//For more information, try '--help'./
";

/// The same if standard error takes nothing: the status alone shows the fault.
const UNHEARD: &str = "\
giveup check < SHEET G1 0/ -> 1 ; ;
giveup secret E1 < x -> 1 ; E1,07070707070707070707070707070707,40e450030d0b857819fc046187cddb246c4842f9a8c23810b93201ebc4e28520/;
giveup claim < x -> 2 ; ;
";

/// The same if standard output takes nothing: a secret whose row is lost is shown to nobody.
const UNSHOWN: &str = "\
giveup secret E1 < x -> 1 ; ; giveup: write fault/
";

/// The same if there are no random bytes: tables of ids would have no seed, so nothing is opened or read but a sheet, and no secret is
/// issued.
const UNSEEDED: &str = "\
giveup secret E1 < x -> 1 ; ; giveup: read fault/
giveup < x -> 1 ; ; giveup: read fault/
giveup replay house < DAY 20260105/ -> 1 ; ; giveup: read fault/
giveup fix E1 house < x -> 1 ; ; giveup: read fault/
giveup serve house 9878 < x -> 1 ; ; giveup: read fault/
giveup check < SHEET G1 0/END/ -> 1 ; ; giveup: read fault/
";

/// The same at a terminal, which also shows what is waited for, and what failed and why.
const WATCHED: &str = "\
giveup <  -> 0 ; ; giveup: trade capture waits for FIX messages on standard input; giveup --help shows the other commands/
giveup check < SHEET G1 0/END/ -> 0 ; OK 0/;
giveup check < SHEET G1 0/TAKE/ -> 1 ; ; giveup: bad line 2/giveup: standard input: line 2 is missing, or isn't a line that may be there/
giveup replay house < DAY 20260105/DAY/ -> 1 house ; 1 OK/; giveup: bad line 2/giveup: standard input: line 2 is missing, or isn't a line that may be there/
giveup replay gone < DAY 20260105/ -> 1 gone ; ; giveup: reference: ReadFault/giveup: gone: entity not found/
giveup replay bad < DAY 20260105/ -> 1 bad ; ; giveup: reference: BadRow 18/giveup: bad: record 18 isn't a row that may be there/
giveup fix E1 house --script gone < x -> 1 house gone ; ; giveup: read fault/giveup: gone: entity not found/
giveup fix E1 house --script two < x -> 1 house two ; ; giveup: bad line 2/giveup: two: line 2 is missing, or isn't a line that may be there/
giveup serve house 9878 < x -> 1 house 127.0.0.1:9878 ; ; giveup: read fault/giveup: port 9878: address in use/
giveup serve house 9878 --journal day < x -> 1 house ; ; giveup: journal: NotEmpty/giveup: day: it isn't empty, and a day doesn't write over what it finds/
giveup serve house 9878 --journal gone < x -> 1 house +gone ; ; giveup: write fault/giveup: gone: entity not found/
giveup fix e1 lost < x -> 2 ; ; error: invalid value for '<FIRM>': a firm is 1 to 12 of A-Z, 0-9 and -//Usage: giveup fix [OPTIONS] <FIRM> <REF>//For more information, try '--help'./
";

/// A session whose firm sends nothing for a while before each read.
const SLOW: &str = "\
giveup fix E1 house < 8=FIXT.1.1|9=66|35=A|49=E1|56=GIVEUP|34=1|52=20260105-09:00:00|98=0|108=30|1137=9|10=004| -> 0 house ; 8=FIXT.1.1|9=70|35=A|49=GIVEUP|56=E1|34=1|52=20260105-09:00:00.000|98=0|108=30|1137=9|10=189|;
";

/// Days on the machine's port, to which one firm has connected: it sends this input, and waits for the end of its connection.
const SERVED: &str = "\
giveup serve house 9878 --script day --connections 1 < 8=FIXT.1.1|9=66|35=A|49=E1|56=GIVEUP|34=1|52=20260105-09:00:00|98=0|108=30|1137=9|10=004|8=FIXT.1.1|9=112|35=AE|49=E1|56=GIVEUP|34=2|52=20260105-09:00:00|571=R1|880=M1|55=XF6|32=10|31=101.5|75=20260105|552=1|54=1|1=H1|10=236| -> 0 house day 127.0.0.1:9878 ; ENTRIES 2/SWEPT 0/AUDIT OK/;
giveup serve house 9878 --script day --connections 1 --journal log < 8=FIXT.1.1|9=66|35=A|49=E1|56=GIVEUP|34=1|52=20260105-09:00:00|98=0|108=30|1137=9|10=004|8=FIXT.1.1|9=112|35=AE|49=E1|56=GIVEUP|34=2|52=20260105-09:00:00|571=R1|880=M1|55=XF6|32=10|31=101.5|75=20260105|552=1|54=1|1=H1|10=236| -> 0 house day +log +log.new !log.new 127.0.0.1:9878 log.new=log . !. !log.new ; ENTRIES 2/SWEPT 0/AUDIT OK/; ; # giveup 0.1.0 for rattle-kit-13f (logic dac8208d650f15bf)/# reference: SHA-256 8167b5abead291b098903bd30fe0583fc384d2e678c4feae8d5f0182aa6165f4/# opened: 2026-01-05T09:00:00Z/DAY 20260105/# 1 087463b66c4a0bef301fae1c9da17125a35ee073bc886113b17bdebdcc15eb43/# 20260105-09:00:00.000 E1 1 2/REPORT E1 R1 M1 B XF6 10 101.5 H1/# 2 f7a1e81ddc4699d97f0dd50273a849abc37ad8ffdbf90d5a612000d801439a2a/
giveup serve house 9878 --script day --connections 1 --journal worn < 8=FIXT.1.1|9=66|35=A|49=E1|56=GIVEUP|34=1|52=20260105-09:00:00|98=0|108=30|1137=9|10=004|8=FIXT.1.1|9=112|35=AE|49=E1|56=GIVEUP|34=2|52=20260105-09:00:00|571=R1|880=M1|55=XF6|32=10|31=101.5|75=20260105|552=1|54=1|1=H1|10=236| -> 1 house day +worn +worn.new !worn.new 127.0.0.1:9878 worn.new=worn . !. ; ; giveup: write fault/giveup: worn: no storage space; entries that it has: 1/
giveup serve house 9878 --script day --secrets keys --connections 1 < 8=FIXT.1.1|9=103|35=A|49=E1|56=GIVEUP|34=1|52=20260105-09:00:00|98=0|108=30|554=07070707070707070707070707070707|1137=9|10=120|8=FIXT.1.1|9=112|35=AE|49=E1|56=GIVEUP|34=2|52=20260105-09:00:00|571=R1|880=M1|55=XF6|32=10|31=101.5|75=20260105|552=1|54=1|1=H1|10=236| -> 0 house keys day 127.0.0.1:9878 ; ENTRIES 2/SWEPT 0/AUDIT OK/;
giveup serve house 9878 --script traded --connections 1 --every 0 < 8=FIXT.1.1|9=66|35=A|49=E1|56=GIVEUP|34=1|52=20260105-09:00:00|98=0|108=30|1137=9|10=004|8=FIXT.1.1|9=93|35=J|49=E1|56=GIVEUP|34=2|52=20260105-09:00:00|70=L1|71=0|53=10|124=1|17=R1|78=1|79=A1|80=10|10=229| -> 0 house traded 127.0.0.1:9878 ; ENTRIES 8/SWEPT 0/AUDIT OK/;
giveup serve house 9878 --script traded --connections 1 --every 1 < 8=FIXT.1.1|9=66|35=A|49=E1|56=GIVEUP|34=1|52=20260105-09:00:00|98=0|108=30|1137=9|10=004|8=FIXT.1.1|9=93|35=J|49=E1|56=GIVEUP|34=2|52=20260105-09:00:00|70=L1|71=0|53=10|124=1|17=R1|78=1|79=A1|80=10|10=229| -> 0 house traded 127.0.0.1:9878 ; ENTRIES 9/SWEPT 10/AUDIT OK/;
";

/// The same with a log, in which P replaces the firm's port.
const LOGGED: &str = "\
giveup serve house 9878 --script day --connections 1 --log < 8=FIXT.1.1|9=66|35=A|49=E1|56=GIVEUP|34=1|52=20260105-09:00:00|98=0|108=30|1137=9|10=004|8=FIXT.1.1|9=112|35=AE|49=E1|56=GIVEUP|34=2|52=20260105-09:00:00|571=R1|880=M1|55=XF6|32=10|31=101.5|75=20260105|552=1|54=1|1=H1|10=236| -> 0 house day 127.0.0.1:9878 ; ENTRIES 2/SWEPT 0/AUDIT OK/; 20260105-09:00:00.000 day.opened reference=house day=20260105 entries=1/20260105-09:00:00.000 listening at=port port=9878/20260105-09:00:00.000 firms.unknown note=\"whoever reaches the port is any firm\"/20260105-09:00:00.000 connection.accepted n=1 at=port port=P/20260105-09:00:00.000 logon.accepted n=1 firm=E1/20260105-09:00:00.000 connection.ended n=1 firm=E1 reason=done/20260105-09:00:00.000 day.closed entries=2 swept=0 audit=OK/
";

/// A day whose lines can't be printed: its journal is written all the same, and both faults are reported.
const UNPRINTED: &str = "\
giveup serve house 9878 --script day --connections 1 --journal log < 8=FIXT.1.1|9=66|35=A|49=E1|56=GIVEUP|34=1|52=20260105-09:00:00|98=0|108=30|1137=9|10=004|8=FIXT.1.1|9=112|35=AE|49=E1|56=GIVEUP|34=2|52=20260105-09:00:00|571=R1|880=M1|55=XF6|32=10|31=101.5|75=20260105|552=1|54=1|1=H1|10=236| -> 1 house day +log +log.new !log.new 127.0.0.1:9878 log.new=log . !. !log.new ; ; giveup: write fault/; # giveup 0.1.0 for rattle-kit-13f (logic dac8208d650f15bf)/# reference: SHA-256 8167b5abead291b098903bd30fe0583fc384d2e678c4feae8d5f0182aa6165f4/# opened: 2026-01-05T09:00:00Z/DAY 20260105/# 1 087463b66c4a0bef301fae1c9da17125a35ee073bc886113b17bdebdcc15eb43/# 20260105-09:00:00.000 E1 1 2/REPORT E1 R1 M1 B XF6 10 101.5 H1/# 2 f7a1e81ddc4699d97f0dd50273a849abc37ad8ffdbf90d5a612000d801439a2a/
";

/// A day that is resumed: a torn line of its journal is cut off, and the digest of the rest comes again.
const RESUMED: &str = "\
giveup serve house 9878 --script gone --connections 1 --journal log --resume < 8=FIXT.1.1|9=66|35=A|49=E1|56=GIVEUP|34=1|52=20260105-09:00:00|98=0|108=30|1137=9|10=004|8=FIXT.1.1|9=112|35=AE|49=E1|56=GIVEUP|34=2|52=20260105-09:00:00|571=R1|880=M1|55=XF6|32=10|31=101.5|75=20260105|552=1|54=1|1=H1|10=236| -> 0 house +log !log 127.0.0.1:9878 !log ; ENTRIES 2/SWEPT 0/AUDIT OK/; giveup: log: bytes cut after its last whole line: 6/; # giveup 0.1.0 for rattle-kit-13f (logic dac8208d650f15bf)/# reference: SHA-256 8167b5abead291b098903bd30fe0583fc384d2e678c4feae8d5f0182aa6165f4/# opened: 2026-01-05T09:00:00Z/DAY 20260105/# 1 087463b66c4a0bef301fae1c9da17125a35ee073bc886113b17bdebdcc15eb43/# giveup 0.1.0 for rattle-kit-13f (logic dac8208d650f15bf)/# resumed: 2026-01-05T09:00:00Z/# 1 087463b66c4a0bef301fae1c9da17125a35ee073bc886113b17bdebdcc15eb43/# 20260105-09:00:00.000 E1 1 2/REPORT E1 R1 M1 B XF6 10 101.5 H1/# 2 f7a1e81ddc4699d97f0dd50273a849abc37ad8ffdbf90d5a612000d801439a2a/
";

/// The head of the sample's journal, and a day.
const JOURNAL: &[u8] = b"# giveup 0.1.0 for rattle-kit-13f (logic dac8208d650f15bf)
# reference: SHA-256 8167b5abead291b098903bd30fe0583fc384d2e678c4feae8d5f0182aa6165f4
# opened: 2026-01-05T09:00:00Z
DAY 20260105
";

/// The digest after the day's one entry.
const DIGEST: &[u8] = b"# 1 087463b66c4a0bef301fae1c9da17125a35ee073bc886113b17bdebdcc15eb43
";

/// Returns the text of a journal whose head is this, with what comes after it.
fn text_of(alloc: Global, head: &[u8], rest: &[u8]) -> Result<Vec<u8>, AllocError> {
    let mut text = Vec::from_slice(alloc, head)?;
    text.extend_from_slice(rest)?;
    Ok(text)
}

/// Returns the files of a machine that can be written.
fn disk_of(alloc: Global, setting: Setting) -> Result<Disk, AllocError> {
    let mut disk = Disk::new(alloc);
    let mut torn = text_of(alloc, JOURNAL, DIGEST)?;
    torn.extend_from_slice(b"REPORT\0\0\0")?;
    let log = if setting == Setting::Logged {
        torn.as_slice()
    } else {
        b""
    };
    disk.add("log", Kind::Sound, log)?;
    disk.add("stuck", Kind::Stuck, b"")?;
    disk.add("worn", Kind::Sound, b"")?;
    disk.add("held", Kind::Held, JOURNAL)?;
    disk.add(
        "alien",
        Kind::Sound,
        b"# giveup\n# reference: SHA-256 00\nDAY 20260105\n",
    )?;
    let edited = text_of(
        alloc,
        JOURNAL,
        b"# 1 0000000000000000000000000000000000000000000000000000000000000000\n",
    )?;
    disk.add("edited", Kind::Sound, &edited)?;
    let decayed = text_of(
        alloc,
        JOURNAL.get(..JOURNAL.len() - 9).unwrap_or(&[]),
        b"2026x105\n",
    )?;
    disk.add("decayed", Kind::Sound, &decayed)?;
    let mut padded = text_of(alloc, JOURNAL, b"\0")?;
    padded.resize(padded.len() + 1_048_577, b'x')?;
    disk.add("padded", Kind::Sound, &padded)?;
    Ok(disk)
}

/// Returns what a run on a machine did. A terminal's notes are appended to `notes`.
fn run<R: Threads + Wait + Sync>(
    machine: Machine<'_, R>,
    notes: &mut Vec<u8>,
) -> Result<String, AllocError> {
    let alloc = machine.alloc;
    let host = machine.host;
    let is_watched = machine.setting == Setting::Watched;
    let terminal = Some(notes).filter(|_| is_watched);
    let screen = Screen {
        terminal,
        is_typed: is_watched,
        stderr: LogEnd::new(&machine),
    };
    let number = match status_of(&machine, screen) {
        Status::Done => 0,
        Status::Fault => 1,
        Status::Refused => 2,
    };
    let opened = shown(alloc, machine.opened.lock(host).as_slice())?;
    let out = shown(alloc, machine.out.lock(host).as_slice())?;
    let err = shown(alloc, machine.err.lock(host).as_slice())?;
    let log = shown(alloc, machine.disk.lock(host).text_of("log"))?;
    drop(machine);
    let end = if log.is_empty() { "" } else { "; " };
    format!(in alloc; "{number} {opened}; {out}; {err}{end}{log}")
}

/// Returns what a run with these words and this input does on a machine with this port. A terminal's notes are appended to `notes`.
fn told<R: Threads + Wait + Sync + Alloc<A = Global>>(
    host: &R,
    row: &str,
    setting: Setting,
    port: Option<TcpListener>,
    notes: &mut Vec<u8>,
) -> Result<String, AllocError> {
    let alloc = host.alloc();
    let (words, input) = row.split_once(" < ").unwrap_or((row, ""));
    let words = Vec::from_iter(alloc, words.split(' '))?;
    let input = wire(alloc, input)?;
    let mut bad = Vec::from_slice(alloc, SAMPLE_ROWS)?;
    bad.extend_from_slice(b"FIRM\n")?;
    let disk = Mutex::new(disk_of(alloc, setting)?);
    let opened = Mutex::new(Vec::new(alloc));
    let machine = Machine {
        host,
        alloc,
        words: &words,
        files: &[
            ("house", SAMPLE_ROWS),
            ("bad", &bad),
            ("day", b"DAY 20260105\n"),
            ("two", b"DAY 20260105\nDAY\n"),
            ("amiss", AMISS),
            ("traded", TRADED),
            ("keys", KEYS),
            ("alike", ALIKE),
            (".", b""),
        ],
        input: input.as_bytes(),
        setting,
        port: Mutex::new(port),
        disk: &disk,
        out: Mutex::new(Vec::new(alloc)),
        err: Mutex::new(Vec::new(alloc)),
        opened: &opened,
    };
    run(machine, notes)
}

/// Asserts that the run of each row does what the row says.
fn check<R: Abort + Threads + Wait + Sync + Alloc<A = Global>>(
    rt: &R,
    setting: Setting,
    table: &str,
) {
    let alloc = rt.alloc();
    for row in table.lines() {
        let (run, expected) = columns(row);
        let told = told(rt, run, setting, None, &mut Vec::new(alloc)).expect(rt, "memory");
        check_told(rt, row, String::from_str(alloc, told.trim_end()), expected);
    }
}

/// Returns a port, and the connection of a firm to it.
fn connected<R: Net<Listener = TcpListener, Stream = TcpStream>>(
    rt: &R,
) -> io::Result<(TcpListener, TcpStream)> {
    let listener = TcpListener::bind(rt, ("127.0.0.1", 0))?;
    let stream = TcpStream::connect(rt, listener.local_addr()?)?;
    Ok((listener, stream))
}

/// Sends bytes, and reads until the connection is closed.
fn send_all(alloc: Global, mut stream: TcpStream, bytes: &[u8]) -> io::Result<usize> {
    stream.set_read_timeout(Some(Duration::from_secs(20)))?;
    stream.write_all(bytes)?;
    stream.shutdown(Shutdown::Write)?;
    let mut rest = Vec::new(alloc);
    stream.read_to_end(&mut rest)
}

/// Returns what a run does if a firm sends the input to its port.
fn served<
    R: Net<Listener = TcpListener, Stream = TcpStream> + Threads + Wait + Sync + Alloc<A = Global>,
>(rt: &R, run: &str, setting: Setting) -> io::Result<String> {
    let alloc = rt.alloc();
    let input = wire(alloc, run.split_once(" < ").map_or("", |words| words.1))?;
    let (listener, stream) = connected(rt)?;
    let (told, read) = thread::join(
        rt,
        || told(rt, run, setting, Some(listener), &mut Vec::new(alloc)),
        || send_all(alloc, stream, input.as_bytes()),
    );
    read?;
    Ok(told?)
}

#[test]
fn each_task_has_its_status_its_output_and_its_fault_on_standard_error(rt: HostRuntime) {
    check(&rt, Setting::Usual, RUNS);
}

#[test]
fn at_a_terminal_it_is_said_what_is_waited_for_and_what_is_at_fault(rt: HostRuntime) {
    check(&rt, Setting::Watched, WATCHED);
}

#[test]
fn a_fault_that_nobody_hears_has_its_status(rt: HostRuntime) {
    check(&rt, Setting::Unheard, UNHEARD);
}

#[test]
fn a_secret_whose_row_cant_be_printed_is_shown_to_nobody(rt: HostRuntime) {
    check(&rt, Setting::Unprinted, UNSHOWN);
}

#[test]
fn without_random_bytes_nothing_is_opened(rt: HostRuntime) {
    check(&rt, Setting::Unseeded, UNSEEDED);
}

#[test]
fn a_firm_that_sends_nothing_for_a_while_is_waited_for(rt: HostRuntime) {
    check(&rt, Setting::Slow, SLOW);
}

#[test]
fn a_long_script_is_noted_at_a_terminal(rt: HostRuntime) {
    let alloc = rt.alloc();
    let lines = "#/".repeat(alloc, 100_352).expect(&rt, "memory");
    let row = format!(in alloc; "giveup replay house < {lines}").expect(&rt, "memory");
    let mut notes = Vec::new(alloc);
    let told = told(&rt, &row, Setting::Watched, None, &mut notes);
    check_told(&rt, "100,352 lines", told, "0 house ; ; ");
    check_told(
        &rt,
        "their notes",
        shown(alloc, &notes),
        "giveup: 100352 lines done/",
    );
}

/// What comes before the port of a firm that was accepted.
const ACCEPTED: &str = "connection.accepted n=1 at=port port=";

/// Returns what a run did, with P for the port of the firm that was accepted.
fn without_port(alloc: Global, told: &str) -> Result<String, AllocError> {
    let Some((before, after)) = told.split_once(ACCEPTED) else {
        return String::from_str(alloc, told);
    };
    let after = after.trim_start_matches(|digit: char| digit.is_ascii_digit());
    format!(in alloc; "{before}{ACCEPTED}P{after}")
}

/// Asserts that the day of each row is served as the row says.
fn check_served<
    R: Abort
        + Net<Listener = TcpListener, Stream = TcpStream>
        + Threads
        + Wait
        + Sync
        + Alloc<A = Global>,
>(rt: &R, setting: Setting, table: &str) {
    let alloc = rt.alloc();
    for row in table.lines() {
        let (run, expected) = columns(row);
        let told = served(rt, run, setting).ok().expect(rt, "a day");
        check_told(rt, row, without_port(alloc, told.trim_end()), expected);
    }
}

#[test]
fn what_happens_on_a_day_is_in_its_log(rt: HostRuntime) {
    check_served(&rt, Setting::Usual, LOGGED);
}

#[test]
fn a_day_is_served_on_a_port_and_ends_with_its_lines(rt: HostRuntime) {
    check_served(&rt, Setting::Usual, SERVED);
}

#[test]
fn a_day_whose_lines_cant_be_printed_has_its_journal(rt: HostRuntime) {
    check_served(&rt, Setting::Unprinted, UNPRINTED);
}

#[test]
fn a_day_goes_on_in_its_journal(rt: HostRuntime) {
    check_served(&rt, Setting::Logged, RESUMED);
}
