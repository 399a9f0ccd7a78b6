//! Part of the script: orders that are resent until the office has replied.

/// Declares how an order is sent. It is stored first, and resent under its id until the office has replied.
pub(crate) const PENDING: &str = r#"// ---- sending orders

const WAITS = [2, 5, 10, 20, 30];
const PENDING = 'order ';
const MOST_LOGGED = 200;
// What the office accepts as the body of a request.
const MOST_BYTES = 1048576;
// A day, in seconds: an order waits this long unless the officer acts.
const LONG = 86400;

// The order that is being sent from this window, or null. Only one is sent at a time.
let current = null;
let wakeUp = () => {};

const isUnknown = (answer) => !answer || answer.status >= 500;
const isDone = (answer) => answer?.status === 200 && Number.isInteger(answer.says?.status);

// Orders that make a file or a folder. Unless they are done, they change nothing else.
const MAKES_FILE = /^(copy|mend|switch|publish)$/;

// After these faults an order with an id may or may not have been done. The office does it once for its id, so it keeps that id.
const OPEN_FAULTS = /(^|: )fault (101|102|103|104|107): /m;
const leavesOpen = ({words}, {status, errors}) => status === 3 && OPEN_FAULTS.test(errors) && !MAKES_FILE.test(words[0]);

const pendingOrders = () => storedNames(PENDING).map((it) => stored(it)).filter((it) => it?.words).sort((one, other) => one.at - other.at);

const logged = (order, {status, output, errors}) => {
  const entry = {at: Date.now(), words: order.words.join(' ').slice(0, 400), title: order.title, status, reply: (status ? errors : output).slice(0, 400)};
  store('log', [entry, ...stored('log', [])].slice(0, MOST_LOGGED));
};

// When the last message was shown.
let toldAt = 0;

// Hides the message that an order was done, unless it is new. Called when the officer opens another section.
const forgetTold = () => {
  if (at('result').className === 'done' && Date.now() - toldAt > 2000) at('result').hidden = true;
};

const tell = (kind, title, ...more) => {
  const close = button('Close', () => { at('result').hidden = true; }, {className: 'quiet'});
  toldAt = Date.now();
  at('result').className = kind;
  at('result').hidden = false;
  at('result').replaceChildren(made('div', {}, made('p', {className: 'said'}, title), ...more.filter(Boolean).map((it) => made('p', {}, it))), close);
};

const waitFor = (seconds) => new Promise((resolve) => {
  const timer = setTimeout(resolve, 1000 * seconds);
  wakeUp = () => { clearTimeout(timer); resolve(); };
});

// Stops sending the current order.
const giveUp = () => {
  at('unsent').hidden = true;
  if (!current) return;
  current.given = true;
  wakeUp();
};

const showUnsent = (order, text, isPaused) => {
  at('result').hidden = true;
  at('unsent').hidden = false;
  const forgetIt = button('Discard this order', giveUp, {key: 'discard'});
  at('unsent').replaceChildren(
    made('p', {className: 'said'}, `${order.open ? 'Not confirmed yet' : 'Not done yet'}: ${order.title}.`), made('p', {}, text),
    made('p', {className: 'acts'}, button('Send again now', () => wakeUp(), {main: true, key: 'send-again'}), isPaused ? forgetIt : ''));
};

const leaveOpen = (order) => {
  order.open = true;
  store(PENDING + order.key, order);
};

// Returns why an order isn't confirmed, and after how many seconds to send it again, or 0 to wait for the officer.
const whyUnsent = (order, answer, turn) => {
  if (isOther()) return ['This may not be the office that the order was meant for. If you confirm above that it is the right one, this order is discarded.', 0];
  if (isDone(answer)) {
    leaveOpen(order);
    const {line, todo} = explainedError(answer.says.errors);
    return [`${said(line)} ${todo} You can safely send it again from here: it is done only once.`, 0];
  }
  if (isUnknown(answer)) {
    leaveOpen(order);
    const seconds = WAITS[Math.min(turn, WAITS.length - 1)];
    const again = `The console sends it again in ${seconds} seconds. It is done only once.`;
    return [`${explainedAnswer(answer)} Nothing is lost, and you don\u2019t need to enter it again. ${again}`, seconds];
  }
  const doubt = order.open ? 'The order may already have been done: check the overview before you discard it.' : 'Nothing was changed.';
  return [`${explainedAnswer(answer)} ${doubt}`, 0];
};

// If the reply to a copy or to a publication was lost, the file or folder exists when the order is sent again: nothing else has its name.
const LOST_REPLIES = {copy: 'copy already made\n', publish: 'results already published\n'};
const replyTo = (order, says) => {
  const output = order.open && /^fault 109/.test(says.errors) ? LOST_REPLIES[order.words[0]] : undefined;
  return output ? {status: 0, output, errors: ''} : says;
};

const bodyOf = ({files, words}) => JSON.stringify({files: files ?? {}, words});
const isTooLarge = (order) => new TextEncoder().encode(bodyOf(order)).length > MOST_BYTES;

// A switch isn't sent again, since the new office may be the one that would get it.
const isLost = ({words}, answer) => words[0] === 'switch' && isUnknown(answer);

// Sends an order until the office replies. Returns what the program printed, or null if the officer discarded the order, or a switch has no reply.
const sendAsLong = async (order) => {
  const body = bodyOf(order);
  for (let turn = 0; !order.given; turn += 1) {
    if (turn) await refresh();
    const answer = isOther() ? null : await ask('orders', body);
    at('unsent').hidden = true;
    if (isDone(answer) && !leavesOpen(order, answer.says)) return replyTo(order, answer.says);
    if (isLost(order, answer)) { order.open = true; return null; }
    const [why, seconds] = whyUnsent(order, answer, turn);
    showUnsent(order, why, seconds === 0);
    await waitFor(seconds || LONG);
  }
  return null;
};

const showResult = (order, {status, output, errors}) => {
  const lines = output.trimEnd().split('\n').filter(Boolean);
  const note = errors.split('\n').find((it) => /note: /.test(it));
  const replies = lines.length > 3 ? `${lines.length} replies, the last of them: ${lines.at(-1)}` : lines.join('; ');
  if (status === 0 && !note) return tell('done', `Done: ${order.title}.`, replies && made('code', {}, replies));
  if (status === 0) return tell('refused', `Nothing was changed: ${order.title}.`, made('code', {}, note), 'The id was used before with other details. Try again.');
  const {line, todo} = explainedError(errors);
  const before = lines.length && !MAKES_FILE.test(order.words[0]) ? `Before that, ${many(lines.length, 'part')} of the order ${lines.length === 1 ? 'was' : 'were'} done.` : '';
  return tell('refused', `Not done: ${order.title}.`, made('code', {}, line), made('span', {}, made('b', {}, 'What to do: '), todo), before);
};

const finish = async (order) => {
  current = order;
  document.body.classList.add('busy');
  const printed = await sendAsLong(order);
  unstore(PENDING + order.key);
  if (printed) {
    logged(order, printed);
    if (/^(mend|switch)$/.test(order.words[0])) storeMended(order, printed);
    if (order.words[0] === 'copy' && printed.status === 0) store('copy', {at: Date.now(), name: order.words[1]});
  }
  await refresh(true);
  current = null;
  document.body.classList.remove('busy');
  if (order.words[0] === 'switch' && !printed?.status) tellSwitch(order);
  else if (printed) showResult(order, printed);
  return printed;
};

// Sends an order that was confirmed. Returns what the program printed, or null if it wasn't sent.
const order = async (title, words, files = {}) => {
  if (current) {
    tell('refused', 'The order wasn\u2019t sent.', `The office hasn\u2019t confirmed the previous order yet: ${current.title}. Wait for its reply, then try again.`);
    return null;
  }
  if (isOther()) {
    tell('refused', 'The order wasn\u2019t sent.', 'This may not be the same office as before. Confirm above that it is the right one, then try again.');
    return null;
  }
  const key = newId();
  const sent = {key, at: Date.now(), title, words: words.map(String), files, open: false};
  if (isTooLarge(sent)) {
    tell('refused', 'The order wasn\u2019t sent.', AFTER_STATUS[413]);
    return null;
  }
  store(PENDING + key, sent);
  if (sent.words[0] === 'switch') awaitSwitch(sent);
  return finish(sent);
};

// Sends an order with a new id.
const orderWithId = (title, words, files) => order(title, [words[0], '--id', newId(), '--', ...words.slice(1)], files);

// Sends an order with an id made from what it is about, such as stage 3 of a ward: if two consoles send it at once, it is done once.
const orderOnce = async (title, words, about) => {
  const sent = (id) => order(title, [words[0], '--id', id, '--', ...words.slice(1)]);
  const printed = await sent(`c-${words[0]}-${about}`);
  return printed?.status === 1 && explainedError(printed.errors).refusal === 2 ? sent(newId()) : printed;
};

// Sends the orders again, each with its id, that had no reply when the page was closed or reloaded. A switch isn't sent again.
const resume = async () => {
  if (isOther()) return;
  for (const each of pendingOrders()) await finish({...each, open: true, given: each.words[0] === 'switch'});
};

const isAccepted = (printed) => printed?.status === 0;

"#;
