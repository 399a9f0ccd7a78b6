//! Part of the script: copies, downloads, and the accepted orders.

/// Declares copies, the journal, the list of accepted orders, and the list of what this browser sent.
pub(crate) const JOURNAL: &str = r#"// ---- copies, downloads and accepted orders

const MOST_SHOWN = 100;

const receiptFilter = {search: '', actor: '', most: MOST_SHOWN};

// How often the office is asked for its second record: each order, also this one, empties what it has cached of its responses.
const RECORD_AFTER = 60000;

// What the office last said of its second record, line by line, and when it was asked. The first line says where it is; any others warn.
const recording = {lines: [], at: -RECORD_AFTER};

const recordText = () => recording.lines.map(said).join(' ');

// Shows where the second record is. Asks the office for that, unless it was asked within the last minute.
const readRecord = async () => {
  if (Date.now() - recording.at < RECORD_AFTER) return;
  recording.at = Date.now();
  const {output, why} = await outputOf('record');
  recording.lines = why ? [] : output.trimEnd().split('\n');
  at('recorded').className = recording.lines.length > 1 ? 'down' : '';
  at('recorded').textContent = recordText();
};

const makeCopy = async () => {
  const name = `copy-${timeText()}.db`;
  await order(`make the copy ${name}`, ['copy', name]);
};

const drawCopies = () => {
  const copy = stored('copy');
  const made_ = stored('log', []).filter((it) => it.words.startsWith('copy ') && it.status === 0).slice(0, 5);
  fill(at('copies'),
    made('p', {className: 'said'}, copy ? `Last copy: ${ago(copy.at)}` : 'No copy made from this browser yet'),
    made('p', {}, recordText()),
    made('p', {}, 'A copy is stored in the same folder as the office\u2019s file. Move it to another disk or a USB stick, so that it is safe if this computer fails.'),
    made('p', {className: 'acts'}, button('Make a copy', makeCopy, {main: true, key: 'copy'})),
    made('ul', {}, ...made_.map((it) => made('li', {}, made('code', {}, it.words.slice(5)), ` at ${clock(it.at)}: ${it.reply.trim()}`))));
};

const drawFiles = () => {
  const counted = office.wards.filter((it) => wasSealed(it) && !isUncontested(it));
  const select = made('select', {ariaLabel: 'Ward', data: {key: 'file-ward'}},
    ...counted.map((it) => made('option', {value: String(it.ward)}, `${it.ward} ${spokenName(it.name)}`)));
  fill(at('files'),
    made('p', {}, 'The journal lists every accepted order, and the office can be rebuilt from it. Don\u2019t show it to the tellers: it contains what each of them keyed.'),
    made('p', {className: 'acts'}, button('Download journal', () => saveOutput('journal.txt', 'text/plain', 'journal'), {key: 'save-journal'}),
      button('Download index of all wards', () => savePage('index.html', 'index'), {key: 'index'})),
    made('p', {className: 'row'}, titleField('title index')),
    counted.length ? made('p', {className: 'acts'}, made('label', {}, 'Ward ', select),
      button('Download ballots', () => saveOutput(`ballots-${select.value}.txt`, 'text/plain', 'ballots', select.value), {key: 'file-ballots'}),
      button('Download stages (CSV)', () => saveOutput(`stages-${select.value}.csv`, 'text/csv', 'table', select.value), {key: 'file-table'})) : '');
};

const matches = (it, words) => words.every((word) => `${it.actor} ${it.id} ${it.subject} ${it.reply}`.toLowerCase().includes(word));

const drawReceipts = async (isNow) => {
  const {says, why} = await read(`receipts${receiptFilter.actor ? `?actor=${receiptFilter.actor}` : ''}`);
  if (!isNow()) return;
  if (!says) { fill(at('receipts'), made('p', {}, why)); return; }
  const words = receiptFilter.search.toLowerCase().split(/\s+/).filter(Boolean);
  const found = says.receipts.filter((it) => matches(it, words));
  const rows = found.slice(0, receiptFilter.most).map((it) => row(senderOf(it), made('code', {}, it.id), it.subject, it.reply, putRightButton(it, says.receipts)));
  fill(at('receipts'), made('p', {}, `${many(found.length, 'order')}${found.length > rows.length ? `, showing the first ${rows.length}` : ''}`),
    rows.length ? table({className: 'plain small'}, ['Sent by', 'Id', 'Order', 'Reply', ''], rows) : '',
    found.length > rows.length ? button('Show more', () => { receiptFilter.most += MOST_SHOWN; draw(); }, {key: 'more-receipts'}) : '');
};

const drawLog = () => {
  const log = stored('log', []);
  const rows = log.slice(0, 30).map((it) =>
    row(clock(it.at), made('span', {}, it.status ? made('b', {className: 'bad'}, 'Not done: ') : '', it.title),
    made('code', {}, it.reply.trim().split('\n').at(-1) ?? '')));
  fill(at('log'), rows.length ? table({className: 'plain small'}, ['Time', 'Order', 'Reply'], rows) : made('p', {}, 'No orders sent from this browser yet.'));
};

DRAW.journal = async (isNow) => {
  drawCopies();
  drawFiles();
  drawPublication();
  drawLog();
  drawMending();
  await drawReceipts(isNow);
};

"#;
