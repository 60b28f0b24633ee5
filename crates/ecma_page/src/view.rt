//! The script's sixth part: what one does. Made by `scripts/frame write` from `web/view.js`.

/// Has the text, the faults and the tree light each other up.
pub(crate) const VIEW: &str =
    r#"// What one does with a text, its faults and its tree: each lights the others up, nodes are searched and copied. The page that has this gives the
// view of its text (`editor`), and what is asked about the text (`worker`).

/** How long the cursor and the search rest before they are asked for, and how long behind a key. */
const [REST_MS, TYPED_MS] = [40, 200];
/** How many of the nodes around the cursor are named. */
const MOST_NAMED = 8;

const $ = id => document.getElementById(id);

// What is asked of the worker about the last answer. An answer of another is let go.

let generation = 0;

const asks = question => worker.postMessage({ ...question, generation });

const faults = new FaultList($('list'), $('further'), $('untold'), {
  light: ({ start, end }) => editor.show(start, end),
  select: ({ start, end }) => editor.select(start, end),
  further: furtherFrom => asks({ furtherFrom }),
});

const tree = new TreeView($('nodes'), {
  light: it => it && editor.show(it.start, it.end),
  select: it => it && editor.select(it.start, it.end),
  toggle: (toggled, isOpen) => asks({ toggled, isOpen }),
  widen: (more, isBefore) => asks({ more, isBefore }),
  copy: () => copyNode(),
  search: () => $('search').focus(),
});

// The cursor.

let moving;
let isGoing = false;

/** Asks for the node around the cursor once it rests, and looks for a fault there. */
function moved(after = REST_MS) {
  clearTimeout(moving);
  moving = setTimeout(() => {
    faults.point(editor.range()[0]);
    asks({ at: editor.range(), unfolds: $('follow').checked });
  }, after);
}

/** Opens the tree to the cursor, and goes there: once the text is answered. */
function goToTree() {
  clearTimeout(moving);
  isGoing = true;
  asks({ at: editor.range(), unfolds: true });
}

/** Lights the node around the cursor. Around what is in no statement is the whole, which is not lit in the text. */
function lightAt({ tree: root, path, way, start, end }) {
  if (root) tree.show(root);
  const last = way.slice(-MOST_NAMED).join(' \u203a ');
  $('path').textContent = way.length > MOST_NAMED ? `\u2026 \u203a ${last}` : last;
  if (way.length > 1) editor.light(start, end);
  else editor.light(0, 0);
  if (!isGoing || !root) return tree.light(path);
  isGoing = false;
  tree.goTo(path);
  $('nodes').focus();
}

// The search.

let found = { words: '', hits: [], count: 0, at: 0 };
let searching;

function search() {
  clearTimeout(searching);
  searching = setTimeout(() => asks({ words: $('search').value }), REST_MS);
}

/** Goes to one of the nodes that were found. */
function goToHit(at) {
  const { hits, count } = found;
  if (hits.length === 0) {
    $('hits').textContent = found.words ? 'none' : '';
    return;
  }
  found.at = (at + hits.length) % hits.length;
  $('hits').textContent = `${found.at + 1} of ${count}`;
  asks({ path: hits[found.at].path });
  editor.show(hits[found.at].start, hits[found.at].end);
}

function searchKey(event) {
  if (event.key === 'Enter') {
    event.preventDefault();
    if (found.generation === generation && found.words === $('search').value) goToHit(found.at + (event.shiftKey ? -1 : 1));
    else search();
  } else if (event.key === 'Escape') {
    $('search').value = '';
    search();
    $('nodes').focus();
  }
}

// JSON.

function copyNode() {
  const row = tree.listed[tree.cursor];
  const it = row?.entry.id === undefined ? row?.parent : row;
  if (it) asks({ copied: it.entry.id });
}

/** Puts a text where others take it from; a browser that keeps that from a page has an older way. */
async function copied(json) {
  try {
    await navigator.clipboard.writeText(json);
  } catch {
    const before = document.activeElement;
    const area = Object.assign(make('textarea', 'copied', ''), { value: json });
    document.body.append(area);
    area.select();
    document.execCommand('copy');
    area.remove();
    before?.focus();
  }
  $('hits').textContent = `copied: ${json.length} characters`;
}

// What the worker found.

/** How many faults there are; the parser hands out as many as it is asked for. */
const countSaid = (count, more) => `${more ? `${count} of ${count + more}` : count} ${count + more === 1 ? 'fault' : 'faults'}`;

/** Shows an answer: its faults, its tree, or why there is none. */
function show({ count, more = 0, faults: first, tree: root, failure, generation: shown, number: answered }) {
  generation = shown;
  faults.show(first, count, more);
  if (count === 0) editor.mark(new Int32Array(0));
  tree.renew(root ?? null, failure ?? 'The text is refused, so there is no tree.');
  for (const id of ['copy', 'copy-node']) $(id).disabled = !root;
  document.documentElement.dataset.shown = answered;
  if (isGoing && root) goToTree();
  else if (document.activeElement === editor.pane) moved(TYPED_MS);
}

/** What is done with an answer about the last text, by the name of its part. */
const SHOWN = {
  marks: ({ marks }) => editor.mark(marks),
  toggled: ({ toggled, isOpen, entries }) => tree.fill(toggled, isOpen ? entries : undefined),
  way: lightAt,
  path: ({ path, tree: root }) => { tree.show(root); tree.goTo(path); },
  hits: ({ words, hits, count }) => { found = { words, hits, count, generation }; goToHit(0); },
  json: ({ json }) => copied(json),
  furtherFrom: ({ furtherFrom, faults: further }) => faults.append(furtherFrom, further),
};

/** Takes in an answer about the last text. */
function heard(data) {
  if (data.generation === generation) SHOWN[Object.keys(SHOWN).find(it => it in data)](data);
}

/** The worker whose script stands in the page. */
function workerOf() {
  const made = new Worker(URL.createObjectURL(new Blob([$('worker').textContent], { type: 'text/javascript' })));
  made.onerror = ({ message }) => { $('state').textContent = message || 'this browser runs no worker here'; };
  return made;
}

/** The keys that the whole page has. */
function key(event) {
  if (event.ctrlKey || event.metaKey || event.altKey) return;
  if (event.key === 'F8') faults.step(event.shiftKey ? -1 : 1);
  else if (event.key === 'F2') goToTree();
  else if (event.key === 'Escape') for (const it of document.querySelectorAll('header details[open]')) it.open = false;
  else return;
  event.preventDefault();
}

// Light and dark. A browser that lets a page of a file keep nothing begins with the system's.

function themed(theme) {
  document.documentElement.dataset.theme = theme;
  $('theme').value = theme;
  try {
    localStorage.setItem('theme', theme);
  } catch {
    // It holds as long as the page is open.
  }
}

function themeKept() {
  try {
    return localStorage.getItem('theme') ?? '';
  } catch {
    return '';
  }
}

/** Has the page answer keys and clicks. */
function startView() {
  themed(themeKept());
  document.addEventListener('keydown', key);
  $('search').addEventListener('input', search);
  $('search').addEventListener('keydown', searchKey);
  $('follow').addEventListener('change', () => moved(0));
  $('copy').addEventListener('click', () => asks({ copied: null }));
  $('copy-node').addEventListener('click', copyNode);
  $('theme').addEventListener('change', () => themed($('theme').value));
}
"#;
